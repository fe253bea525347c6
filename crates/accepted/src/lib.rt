// What acceptance gives, stated once for everything that works on accepted sheets. A theorem, and no code.
#![tactic(auto)]

ghost use Rattle.std.specs.Prelude.{◌≡◌};
ghost use Rattle.std.proofs.Math.Option.{none};
ghost use Rattle.rules.specs.Sheet.{Sheet};
ghost use Rattle.rules.specs.Answer.{first_refusal, checks};
ghost use Rattle.accepted.specs.Accepted.{Accepted};

pub fn accepted_gives()
    ensures { (sh : Sheet) → first_refusal (checks sh) ≡ none → Accepted sh }
{}
