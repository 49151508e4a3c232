//! Laws over the definitions. The functions do nothing; their contracts are the laws.
ghost use Rattle.std.specs.Prelude.{◌≡◌, ℕ, ◌<◌, ◌^◌, ◌++◌, All, List, Option};
ghost use Rattle.ttp_base.specs.Text.{newline};
ghost use Rattle.ttp_world.specs.declared.keep.Back.{Back};
ghost use Rattle.ttp_world.specs.declared.keep.Keep.{Keep};
ghost use Rattle.ttp_world.specs.declared.medl.Medl.{Medl};
ghost use Rattle.ttp_world.specs.declared.node.NodeState.{NodeState};
ghost use Rattle.ttp_world.specs.declared.script.Script.{Script};
ghost use Rattle.ttp_world.specs.declared.script.Source.TheVariants as source;
ghost use Rattle.ttp_world.specs.Trace.{trace_head, keep_line, back_line};
ghost use Rattle.line_reader.specs.declared.trace_line.TraceLine.{TraceLine};
ghost use Rattle.line_reader.specs.declared.trace_line.TraceLine.TheVariants as line;
ghost use Rattle.line_text.specs.HostLines.{written_line, message_line};
ghost use Rattle.line_text.specs.LineParts.{listed_line};
ghost use Rattle.line_reader.specs.TraceLines.{text_of, Fits};
ghost use Rattle.line_reader.specs.WorldLines.{head_of, line_of_node, bytes_of_message};

/// A line is the line of one value at most, of those that fit.
pub fn one_value()
    ensures { (v w : TraceLine) → Fits v → Fits w → text_of v ≡ text_of w → v ≡ w }
{}

/// Each line of the definition of a trace is the line of a value, with a line feed behind it.
pub fn lines_of_traces()
    ensures head { (list : Medl) (script : Script) → trace_head list script ≡ text_of (head_of list script) ++ newline }
    ensures node { (list : Medl) (slot k : ℕ) (state : NodeState) (message : Option ℕ)
        → listed_line list slot k state message ≡ text_of (line_of_node list slot k state message) ++ newline }
    ensures write { (slot host number : ℕ)
        → written_line slot host number ≡ text_of (line.Write slot host number) ++ newline }
    ensures status { (slot host number : ℕ) (words : List ℕ) → All (λ w. w < 2 ^ 64) words
        → message_line slot host source.Status number words
        ≡ text_of (line.Read slot host source.Status number (bytes_of_message source.Status words)) ++ newline }
    ensures read { (slot host p number : ℕ) (payload : List ℕ)
        → message_line slot host (source.Node p) number payload
        ≡ text_of (line.Read slot host (source.Node p) number payload) ++ newline }
    ensures keep { (k : Keep) → keep_line k ≡ text_of (line.Keep k) ++ newline }
    ensures back { (b : Back) → back_line b ≡ text_of (line.Back b) ++ newline }
{}
