//! What holds of the grammar itself.

ghost use Rattle.std.specs.Prelude.{◌≡◌, ◌≤◌, ◌++◌, ◌∷◌, ℕ, List, length};
ghost use Rattle.pot_bytes.specs.declared.rack.Rack.{Rack};
ghost use Rattle.pot_script.specs.declared.command.Command.{Command};
ghost use Rattle.pot_script.specs.declared.command.Command.TheVariants.{Together};
ghost use Rattle.pot_script.specs.Batches.{StartsBatch};
ghost use Rattle.pot_script.specs.Commands.{IsCommand, command_line, command_text};
ghost use Rattle.pot_script.specs.Scripts.{IsScript, LeavesAtLine};

/// Bytes are the script of one list of commands at most, they leave the grammar at one line at
/// most, and never both. For no command's text begins another's.
pub fn one_reading()
    ensures command { (rack : Rack) (c d : Command) (x y : List ℕ) → IsCommand rack c
        → IsCommand rack d → command_text c ++ x ≡ command_text d ++ y → (c ≡ d) × (x ≡ y) }
    ensures script { (rack : Rack) (bytes : List ℕ) (c d : List Command) → IsScript rack bytes c
        → IsScript rack bytes d → c ≡ d }
    ensures line { (rack : Rack) (bytes : List ℕ) (m n : ℕ) → LeavesAtLine rack bytes m
        → LeavesAtLine rack bytes n → m ≡ n }
    ensures either { (rack : Rack) (bytes : List ℕ) (c : List Command) (n : ℕ)
        → IsScript rack bytes c → LeavesAtLine rack bytes n → ⊥ }
{}

/// No line of the grammar has more than 4,096 bytes without its LF, so this limit of a line refuses
/// nothing more.
pub fn lines_are_short()
    ensures { (rack : Rack) (c : Command) → IsCommand rack c → length (command_line c) ≤ 4096 }
{}

/// In a script each `together N` is followed by N jobs and then `end`.
pub fn batches_are_whole()
    ensures { (rack : Rack) (bytes : List ℕ) (front back : List Command) (count : ℕ)
        → IsScript rack bytes (front ++ Together count ∷ back) → StartsBatch count back }
{}
