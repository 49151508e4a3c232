//! The tables of a picture: the letter and the meaning of each word, the styles, and what the answers of the tests mean.
ghost use Rattle.std.specs.Prelude.{◌≡◌, ◌-◌, ◌≤◌, [], ◌++◌, codes, get_or, length};
ghost use Rattle.line_reader.specs.declared.trace_line.Word.TheVariants as word;
ghost use Rattle.line_reader.specs.TraceLines.{word_text};
ghost use Rattle.picture_text.specs.Tables.{words, letter, word_meaning};
ghost use Rattle.picture_text.specs.Tables.{rule_meanings, returning_meanings};

use line_reader::Word;

/// How many words there are.
pub(crate) const WORDS: u8 = 15;

/// The words, in the order of the legend.
pub(crate) fn word_number(number: u8) -> Word
    ensures { result ≡ get_or words number word.Off }
{
    match number {
        1 => Word::Wait,
        2 => Word::Retry,
        3 => Word::Gone,
        4 => Word::Start,
        5 => Word::Join,
        6 => Word::Send,
        7 => Word::Correct,
        8 => Word::Tentative,
        9 => Word::Incorrect,
        10 => Word::Invalid,
        11 => Word::Null,
        12 => Word::Denied,
        13 => Word::Unacknowledged,
        14 => Word::Clique,
        _ => Word::Off,
    }
}

// In the order of `Word`.
const LETTERS: [&str; 15] = [
    "o", "w", "r", "g", "S", "J", "s", "c", "t", "i", "v", "n", "D", "U", "Q",
];

/// The letter of a word.
pub(crate) fn letter(word: Word) -> &'static str
    ensures text { result.now ≡ letter word }
    ensures short { length result.now ≤ 1 }
{
    LETTERS[word as usize]
}

// In the order of `Word`.
const WORD_MEANINGS: [&str; 15] = [
    "off: is off",
    "wait: listens",
    "retry: withdraws its cold start",
    "gone: left earlier",
    "start: sent its cold-start frame",
    "join: joined on a frame",
    "send: sent its frame",
    "correct: accepted the frame",
    "tentative: its own frame may be lost",
    "incorrect: a frame of another C-state",
    "invalid: spoilt, or too early or late",
    "null: heard nothing",
    "denied: left: its frame was lost",
    "unacknowledged: left: no answer",
    "clique: left: it was outvoted",
];

/// A word, and what it means.
pub(crate) fn word_meaning(word: Word) -> &'static str
    ensures text { result.now ≡ word_text word ++ codes ": " ++ word_meaning word }
    ensures short { length result.now ≤ 41 }
{
    WORD_MEANINGS[word as usize]
}

/// The lines of the styles, those of the words in the order of the legend.
pub(crate) const STYLE_LINES: [&str; 28] = [
    "<style>\n",
    "text{font:12px DejaVu Sans Mono,Consolas,monospace}g text{text-anchor:middle;font-size:11px}\n",
    ".off rect{fill:#ffffff}.off text{fill:#9a9a9a}\n",
    ".wait rect{fill:#f0f0f0}.wait text{fill:#8a8a8a}\n",
    ".retry rect{fill:#cfcfcf}.retry text{fill:#000000}\n",
    ".gone rect{fill:#d9d9d9}.gone text{fill:#a6a6a6}\n",
    ".start rect{fill:#004b7c}.start text{fill:#ffffff}\n",
    ".join rect{fill:#56b4e9}.join text{fill:#000000}\n",
    ".send rect{fill:#0072b2}.send text{fill:#ffffff}\n",
    ".correct rect{fill:#e3f2fb}.correct text{fill:#6c8798}\n",
    ".tentative rect{fill:#f0e442}.tentative text{fill:#000000}\n",
    ".incorrect rect{fill:#e69f00}.incorrect text{fill:#000000}\n",
    ".invalid rect{fill:#cc79a7}.invalid text{fill:#000000}\n",
    ".null rect{fill:#ffffff}.null text{fill:#000000}\n",
    ".denied rect{fill:#b03a00}.denied text{fill:#ffffff}\n",
    ".unacknowledged rect{fill:#b03a00}.unacknowledged text{fill:#ffffff}\n",
    ".clique rect{fill:#b03a00}.clique text{fill:#ffffff}\n",
    ".null rect{stroke:#a0a0a0}.off rect{stroke:#c0c0c0;stroke-dasharray:2}\n",
    ".other rect{stroke:#d00000;stroke-width:2}.doubt rect{stroke:#000000;stroke-width:2;stroke-dasharray:3 2}\n",
    ".data text{text-decoration:underline}.refused rect{fill:#d00000}.round{fill:#7a8a94}\n",
    ".agree rect,.none rect{fill:#ffffff}.none text{fill:#555555;font-size:7.5px}.apart rect{fill:#ffffff}.apart text{fill:#555555;font-size:10px}\n",
    ".differ rect{fill:#000000}.differ text{fill:#ffffff;font-weight:bold}\n",
    ".row{text-anchor:end}.slot{text-anchor:middle;font-size:10px;fill:#444444}.said{font-weight:bold}\n",
    "rect.why{fill:#ffffff}text.why{fill:#b03a00;font-weight:bold;font-size:11px}\n",
    ".write,.read,.status{stroke:#000000}.write{fill:#00c853}.read{fill:#ffd000}.status{fill:#e040fb}\n",
    ".flag{stroke:#000000}.keep{text-anchor:end;font-size:10px}.back{font-size:10px}\n",
    ".why,.flag,.round{pointer-events:none}\n",
    "</style>\n",
];

// What it means that a rule is broken that both tests have.
const BOUNDS_PASSED: &str = "a drift or a reading error is past the list's";

const STARTS_ILL: &str =
    "no node would start, two would in the same slot, or one comes on after the start";

const SOME_LOST: &str = "two or more nodes lost a frame, but not all";

const TOO_SOON: &str = "a fault comes too soon after the start or another fault";

const TOO_FEW: &str = "fewer than four correct nodes are left to measure clocks by";

/// What it means that a rule of the hypothesis is broken.
pub(crate) fn rule_meaning(number: u8) -> &'static str
    ensures text { result.now ≡ get_or rule_meanings (number - 1) [] }
    ensures short { length result.now ≤ 100 }
{
    match number {
        0 | 1 => BOUNDS_PASSED,
        2 => "the window is narrower than clocks of this list need",
        3 =>
            "a bit is flipped, a node is armed, or a clock jumps a second time or by less than four windows",
        4 => STARTS_ILL,
        5 => SOME_LOST,
        6 => TOO_SOON,
        7 => TOO_FEW,
        _ => "",
    }
}

/// What it means that a rule on the places of armed nodes is broken.
pub(crate) fn returning_meaning(number: u8) -> &'static str
    ensures text { result.now ≡ get_or returning_meanings (number - 1) [] }
    ensures short { length result.now ≤ 100 }
{
    match number {
        0 | 1 => BOUNDS_PASSED,
        2 => "the window is narrower than clocks need of which one came back",
        3 => "a bit is flipped, or a clock jumps a second time or by less than four windows",
        4 => STARTS_ILL,
        5 => SOME_LOST,
        6 => TOO_SOON,
        7 => TOO_FEW,
        8 => "the node armed in this slot is not owed its place",
        _ => "",
    }
}
