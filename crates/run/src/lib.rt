// The sweep of document 01 is safe and exact: read specs/Theorem.antt for what is proved.
// The functions do nothing: each contract is a theorem, so that no check passes without it.
#![tactic(auto)]

ghost use Rattle.run.specs.Theorem.{Safe, Exact, Once, SafeRows, ExactRows, OnceRows, StandOnce, WantedComputed, ComputedRows, OthersStay, Agreement, SweepIs, AcceptedWithin, SafeCall, ExactCall, Clobbers};

pub fn sweep_is_safe()
    ensures { Safe }
{}

pub fn sweep_is_exact()
    ensures { Exact }
{}

pub fn sweep_is_one()
    ensures { Once }
{}

pub fn rows_are_safe()
    ensures { SafeRows }
{}

pub fn rows_are_exact()
    ensures { ExactRows }
{}

pub fn rows_are_one()
    ensures { OnceRows }
{}

pub fn rows_stand_once()
    ensures { StandOnce }
{}

pub fn wanted_is_computed()
    ensures { WantedComputed }
{}

pub fn computed_rows_are_swept()
    ensures { ComputedRows }
{}

pub fn other_rows_stay()
    ensures { OthersStay }
{}

pub fn ends_are_the_smallest()
    ensures { Agreement }
{}

pub fn sweep_is_computed()
    ensures { SweepIs }
{}

pub fn accepted_within_limits()
    ensures { AcceptedWithin }
{}

pub fn call_is_safe()
    ensures { SafeCall }
{}

pub fn call_is_exact()
    ensures { ExactCall }
{}

pub fn clobbered_units()
    ensures { Clobbers }
{}
