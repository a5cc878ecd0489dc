//! The laws of parsing.
ghost use Rattle.std.specs.Prelude.{◌≡◌, ℕ, List};
ghost use Rattle.ac_tree.specs.declared.program.Program.{Program};
ghost use Rattle.ac_tree.specs.Spelling.{Spells};
ghost use Rattle.ac_parse.specs.declared.parsing.ParseFault.{ParseFault};
ghost use Rattle.ac_parse.specs.declared.parsing.ParseFault.TheVariants.{OutOfMemory};
ghost use Rattle.ac_parse.specs.Parsing.{SpellsWithin, IsParseFault};
ghost use Rattle.ac_program_printer.specs.Printing.{program_text};
ghost use Rattle.ac_program_printer.specs.SameUpToSpans.{IsNumbered, SpellsUpToSpans};

/// The law that bytes spell at most one program.
pub fn bytes_spell_at_most_one_program()
    ensures { (bytes : List ℕ) → (p q : Program) → Spells bytes p → Spells bytes q → p ≡ q }
{}

/// The law that bytes which spell a program within the limits are refused for want of memory alone.
pub fn a_program_within_the_limits_is_parsed()
    ensures { (bytes : List ℕ) → (p : Program) → (f : ParseFault) → SpellsWithin bytes p → IsParseFault bytes f → f ≡ OutOfMemory }
{}

/// The law that bytes have at most one cause of refusal beside want of memory.
pub fn bytes_have_at_most_one_refusal()
    ensures { (bytes : List ℕ) → (f g : ParseFault) → IsParseFault bytes f → IsParseFault bytes g → (f ≡ OutOfMemory → ⊥) → (g ≡ OutOfMemory → ⊥) → f ≡ g }
{}

/// The law that the printed text of a program that bytes spell within the limits spells the same program up to spans. So it
/// holds for every program that `parse` gives.
pub fn a_parsed_program_prints_back()
    ensures { (bytes : List ℕ) → (p : Program) → SpellsWithin bytes p → SpellsUpToSpans (program_text p) p }
{}

/// The law that the nodes of a program that bytes spell have the numbers that their places in the tree give. So it holds for
/// every program that `parse` gives.
pub fn a_parsed_program_is_numbered()
    ensures { (bytes : List ℕ) → (p : Program) → Spells bytes p → IsNumbered p }
{}
