//! What is told of files, beside the answers of the readers and of the test. The function does nothing; its contract is the law.
ghost use Rattle.std.specs.Prelude.{Option};
ghost use Rattle.check_text.specs.Check.{Named};
ghost use Rattle.check_text.specs.Laws.{AgreesWithReaders};

/// A list has an error exactly where the reader of lists refuses it, and the first is called by the words with which
/// `ttpbench` refuses the list. A script beside a right list has one exactly where the reader of scripts refuses it: of the
/// lines with one, the reader names the least, and the fault that it names is told of it. Of right files the last line has the
/// answer of the test; nothing is told where it says yes, and else the first line is on the rule that it names, with its slot
/// where the rule has one.
pub fn files_are_told()
    ensures { (file : Named) (beside : Option Named) → AgreesWithReaders file beside }
{}
