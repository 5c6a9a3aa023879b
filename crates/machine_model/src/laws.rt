//! Laws of every machine. Each function has an empty body: what it says is its contract.
ghost use Rattle.std.specs.Prelude.{◌≡◌, ◌≤◌, ◌++◌, List, ℕ, length, Ok};
ghost use Rattle.fields_model.specs.Format.{Lawful, Stands, IsBytes, placed, whole};
ghost use Rattle.machine_model.specs.MachineSpec.{IsStateOf, IsCommandOf};
ghost use Rattle.machine_model.specs.After.{after, Admitted};
ghost use Rattle.machine_model.specs.Entries.{entry};

use crate::machine::Machine;

/// After each list of commands that were admitted one after the other the state is safe, and so it
/// was after each shorter part of the list. The count is the number of commands.
pub fn admitted_is_safe<M: Machine>()
    ensures whole { (cs : List M.Command) → Admitted M.spec cs
        → M.spec.safe (after M.spec cs) }
    ensures each { (cs ds : List M.Command) → Admitted M.spec (cs ++ ds)
        → M.spec.safe (after M.spec cs) }
    ensures count { (cs : List M.Command) → M.spec.count (after M.spec cs) ≡ length cs }
{}

/// In each version a state's text loads as that state, what loads as a state is its text and is a
/// state of the machine, no other state's text begins with it, and it has at most 16,000,000 bytes.
pub fn states_are_whole<M: Machine>()
    ensures loaded { (version : ℕ) (s : M) → (M.spec.states version).Fits s
        → whole (M.spec.states version) ((M.spec.states version).text s) ≡ Ok s }
    ensures found { (version : ℕ) (bytes : List ℕ) (s : M) → IsBytes bytes
        → whole (M.spec.states version) bytes ≡ Ok s
        → IsStateOf M.spec s × (bytes ≡ (M.spec.states version).text s) }
    ensures apart { (version : ℕ) (s t : M) (x y : List ℕ) → (M.spec.states version).Fits s
        → (M.spec.states version).Fits t
        → (M.spec.states version).text s ++ x ≡ (M.spec.states version).text t ++ y → s ≡ t }
    ensures short { (version : ℕ) (s : M) → (M.spec.states version).Fits s
        → length ((M.spec.states version).text s) ≤ 16000000 }
    ensures command_short { (version : ℕ) (c : M.Command) → (M.spec.commands version).Fits c
        → length ((M.spec.commands version).text c) ≤ 65536 }
{}

/// In each version a command's text at the front of some bytes reads as that command, whatever
/// follows, what reads as a command is its text and is a command of the machine, and no other
/// command's text begins with it.
pub fn commands_are_whole<M: Machine>()
    ensures read { (version : ℕ) (c : M.Command) (rest : List ℕ)
        → (M.spec.commands version).Fits c
        → (M.spec.commands version).read ((M.spec.commands version).text c ++ rest) 0
        ≡ Ok (c, length ((M.spec.commands version).text c)) }
    ensures found { (version : ℕ) (bytes : List ℕ) (c : M.Command) (size : ℕ) → IsBytes bytes
        → (M.spec.commands version).read bytes 0 ≡ Ok (c, size)
        → IsCommandOf M.spec c × Stands (M.spec.commands version) bytes 0 c size }
    ensures apart { (version : ℕ) (c d : M.Command) (x y : List ℕ)
        → (M.spec.commands version).Fits c → (M.spec.commands version).Fits d
        → (M.spec.commands version).text c ++ x ≡ (M.spec.commands version).text d ++ y
        → c ≡ d }
{}

/// In each version the entries of every machine's log have a lawful format: the term, and then the
/// machine's own text of the command.
pub fn entries_are_lawful<M: Machine>()
    ensures lawful { (version : ℕ) → Lawful (entry (placed (M.spec.commands version))) }
    ensures short { (version : ℕ) → (entry (placed (M.spec.commands version))).most ≤ 65544 }
{}
