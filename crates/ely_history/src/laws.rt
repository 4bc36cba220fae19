//! Laws over the definitions of machines and histories. They compute nothing: each contract is a theorem.

ghost use Rattle.std.specs.Prelude.{List};
ghost use Rattle.ely_domain.specs.Given.{Given};
ghost use Rattle.ely_domain.specs.Machine.{first_machine};
ghost use Rattle.ely_history.specs.Histories.{IsRun};
ghost use Rattle.ely_history.specs.Legal.{IsLegalSoFar, IsWhole};
ghost use Rattle.ely_history.specs.Lines.{Taken};
ghost use Rattle.ely_history.specs.Replays.{Told, steps_told};
ghost use Rattle.ely_history.specs.WhoGetsIn.{IsByRight};
ghost use Rattle.ely_script.specs.Lines.{ScriptLine};

/// In every run of the machine, and so in every legal history, whoever's turn it was at each step, those get in who should: a
/// naming pins the version of its moment, a check is passed exactly where its evidence proves the pinned key, a login is
/// authorized exactly where the pinned version grants it, and established exactly where it is ready to succeed; and then both
/// held. It is allowed what the pinned version grants.
pub fn who_gets_in()
    ensures runs { (given : Given) (h : List Taken)
        → IsRun given (first_machine given) h → IsByRight given h }
    ensures so_far { (given : Given) (lines : List ScriptLine) (h : List Told)
        → IsLegalSoFar given lines h → IsByRight given (steps_told h) }
    ensures whole { (given : Given) (lines : List ScriptLine) (h : List Told)
        → IsWhole given lines h → IsByRight given (steps_told h) }
{}
