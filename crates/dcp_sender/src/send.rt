//! A datagram over one of several links.

ghost use Rattle.std.specs.Prelude.{◌≡◌, ◌≤◌, ◌∷◌, [], length};
ghost use Rattle.drm_links.specs.Link.{longest_kept};
ghost use Rattle.drm_links.specs.Calls.{Send, CallsMake};

use crate::Outlets;

/// Sends a datagram over the k-th link, unless it has failed.
pub(crate) fn send_datagram<O: Outlets>(datagram: &[u8], k: usize, outlets: &mut O)
    requires { length datagram.now ≤ longest_kept }
    ensures made { CallsMake (Send k datagram.now ∷ []) (O.up outlets.old) (O.up outlets.new) (λ events. O.happened events outlets.old outlets.new) }
    ensures same_count { length (O.up outlets.new) ≡ length (O.up outlets.old) }
{
    if !outlets.is_up(k) {
        return;
    }
    let _ = outlets.send(k, datagram);
}
