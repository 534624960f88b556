//! The laws of two modulators with gateways or several paths between, each on a function that does nothing.

ghost use Rattle.law_agreement_links.specs.Gateways.{ReachesBehindGateway, TwoBehindGateways};
ghost use Rattle.law_agreement_links.specs.Paths.{PathsAgree, PathsAreAModulator};

use law_agreement::any_two_modulators_agree;
use law_gate::what_is_passed_on_comes_again;
use law_paths::paths_report_deliveries;

/// The schedule reaches a modulator behind a gateway under the gateway's carry.
pub fn a_schedule_reaches_behind_a_gateway()
    ensures { ReachesBehindGateway }
{
    // For its clause alone: what comes of what a gateway sends.
    what_is_passed_on_comes_again();
}

/// Any two modulators behind gateways, each with a carry of its own, agree.
pub fn any_two_behind_gateways_agree()
    ensures { TwoBehindGateways }
{
    // For their clauses alone: the law above, and any two modulators agree.
    a_schedule_reaches_behind_a_gateway();
    any_two_modulators_agree();
}

/// The report of several paths is that of a modulator which received all that arrived over them.
pub fn several_paths_are_a_modulator()
    ensures { PathsAreAModulator }
{
    // For its clause alone: what the report of several paths says of a delivery.
    paths_report_deliveries();
}

/// So it agrees with any other modulator.
pub fn several_paths_agree_with_any_modulator()
    ensures { PathsAgree }
{
    // For their clauses alone: the law above, and any two modulators agree.
    several_paths_are_a_modulator();
    any_two_modulators_agree();
}
