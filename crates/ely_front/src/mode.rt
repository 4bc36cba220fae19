//! A mode that reads a script: what it prints of the lines, and how it answers them one by one.

ghost use Rattle.std.specs.Prelude.{ℕ, List, [], ◌∷◌, ◌++◌, ◌≡◌, IfOk, OnOk, OnErr};
ghost use Rattle.ely_script.specs.Lines.{ScriptLine};
ghost use Rattle.ely_domain.specs.Given.{Given};
ghost use Rattle.ely_front.specs.Modes.{HasRoom, Answers, Finishes, TellsInOrder};

use crate::first_line::Setup;
use ely_base::NoMemory;
use ely_hash::Steps;
use ely_script::{Command, LineError};
use std::alloc::Global;
use std::sync::ledger::Ledger;

/// What reads a script and prints something of its lines.
pub trait Mode: Drop {
    /// What is printed of so many lines while more may come.
    ghost told: { Given → List ScriptLine → List ℕ → Type 0 };

    /// What is printed where they are all, and what that costs at most in HMAC computations.
    ghost at_end: { Given → List ScriptLine → List ℕ → ℕ → Type 0 };

    /// What a value stands for: by this configuration it has answered these lines with this text at this
    /// cost.
    ghost stands: { Given → Self → List ScriptLine → List ℕ → ℕ → Type 0 };

    /// The mode by a configuration, before the first line behind it.
    fn begin(alloc: Global, setup: Setup) -> Result<Self, NoMemory>
        ensures { IfOk result (λ mode. stands setup mode [] [] 0) };

    /// Answers the next line, and puts what is printed of it behind what is collected. After want of memory
    /// nothing is put there, and the value is of no use.
    fn answer<L: Ledger>(
        &mut self,
        alloc: Global,
        line: &Result<Command, LineError>,
        out: &mut Vec<u8>,
        steps: &mut Steps<L>,
    ) -> Result<(), NoMemory>
        requires { HasRoom stands self.old }
        ensures answered { OnOk result
            ((given : Given) (lines : List ScriptLine) (said : List ℕ) (cost : ℕ)
            → stands given self.old lines said cost
            → Answers (stands given self.new (lines ++ line.now ∷ [])) said cost
            out.old.items out.new.items steps.old steps.new) }
        ensures kept { OnErr result (out.new.items ≡ out.old.items) };

    /// Puts what is printed behind the last line behind what is collected. After want of memory nothing is
    /// put there.
    fn finish(&mut self, alloc: Global, out: &mut Vec<u8>) -> Result<(), NoMemory>
        ensures finished { OnOk result
            ((given : Given) (lines : List ScriptLine) (said : List ℕ) (cost : ℕ)
            → stands given self.old lines said cost
            → Finishes (at_end given lines) said cost out.old.items out.new.items) }
        ensures kept { OnErr result (out.new.items ≡ out.old.items) };

    /// What was answered is what is told of the lines.
    ghost tells: { (given : Given) (mode : Self) (lines : List ScriptLine) (said : List ℕ) (cost : ℕ)
        → stands given mode lines said cost → told given lines said };

    /// What is told of lines begins what is told of more lines, and what is told where they are all.
    ghost in_order: { TellsInOrder told at_end };
}
