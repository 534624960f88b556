//! Runs of places at one distance.

ghost use Rattle.std.specs.Prelude.{◌≡◌, ◌<◌, ◌≤◌, ◌+◌, ◌*◌, true, length, slice_index};
ghost use Rattle.rs_erase.specs.Spaced.{AreLanes, IsLane};

/// How many runs there may be: at distance 1 as many as have all places of a message.
pub const RUNS: usize = 13;

/// The places of a run.
const LANES: usize = 16;

/// Runs of places, sixteen lanes each.
#[derive(Clone, Copy)]
pub struct Runs {
    /// Where each run starts.
    pub starts: [u8; RUNS],
    /// How many there are.
    pub used: usize,
    /// How many lanes of each run are behind the places so far, and the place of the next lane.
    lens: [usize; RUNS],
    nexts: [usize; RUNS],
}

impl Runs {
    /// Whether these are the lanes of the places.
    pub fn have(&self, distance: u8, places: &[u8], lanes: &[u8]) -> bool
        requires { length places.now ≤ length lanes.now }
        ensures { result ≡ true → AreLanes self.now.starts self.now.used distance places.now lanes.now }
    {
        for (j, place) in places.iter().enumerate() {
            if !self.has(distance, *place, lanes[j]) {
                return false;
            }
        }
        true
    }

    /// Whether this is the lane of the place.
    fn has(&self, distance: u8, place: u8, lane: u8) -> bool
        ensures { result ≡ true → IsLane self.now.starts self.now.used distance place lane }
    {
        let run = usize::from(lane) / LANES;
        let steps = usize::from(lane) % LANES;
        run < RUNS
            && run < self.used
            && place_of(self.starts[run], distance, steps) == usize::from(place)
    }
}

/// Puts each place into a run, as long as there are enough, and writes its lane.
pub fn runs_of(distance: u8, places: &[u8], lanes: &mut [u8; 48]) -> Runs
    requires { length places.now ≤ 48 }
{
    let mut runs = Runs {
        starts: [0; RUNS],
        used: 0,
        lens: [0; RUNS],
        nexts: [0; RUNS],
    };
    for (j, place) in places.iter().enumerate() {
        lanes[j] = lane_in(&mut runs, distance, *place);
    }
    runs
}

/// The lane of one place more: in a run in whose reach it is, or first in a new one.
fn lane_in(runs: &mut Runs, distance: u8, place: u8) -> u8 {
    for run in 0..RUNS {
        if run >= runs.used {
            runs.used = run + 1;
            runs.starts[run] = place;
            runs.nexts[run] = usize::from(place);
        }
        if runs.nexts[run] < usize::from(place) {
            step_over(runs, run, distance, place);
        }
        let lane = runs.lens[run];
        if lane < LANES && runs.nexts[run] == usize::from(place) {
            step(runs, run, distance);
            return (LANES * run + lane) as u8;
        }
    }
    0
}

/// Goes on over the lanes of a run whose places are before this one.
fn step_over(runs: &mut Runs, run: usize, distance: u8, place: u8)
    requires { run < 13 }
{
    for _ in runs.lens[run]..LANES {
        if runs.nexts[run] >= usize::from(place) {
            return;
        }
        step(runs, run, distance);
    }
}

/// Goes on to the next lane of a run.
fn step(runs: &mut Runs, run: usize, distance: u8)
    requires { run < 13 }
{
    runs.lens[run] = runs.lens[run].wrapping_add(1);
    runs.nexts[run] = runs.nexts[run].wrapping_add(usize::from(distance));
}

/// The place so many steps behind the start of a run.
fn place_of(start: u8, distance: u8, steps: usize) -> usize
    requires { steps < 16 }
    ensures { result ≡ start + distance * steps }
{
    usize::from(start) + usize::from(distance) * steps
}
