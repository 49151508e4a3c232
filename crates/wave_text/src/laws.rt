//! Laws of the definition of a waveform. The functions have no code: their contracts are the laws.
ghost use Rattle.std.specs.Prelude.{◌≡◌, ℕ, true};
ghost use Rattle.std.specs.List.{AllByRecursion};
ghost use Rattle.ttp_base.specs.Text.{is_line};
ghost use Rattle.whole_trace.specs.declared.shown.Head.{Head};
ghost use Rattle.whole_trace.specs.declared.shown.NodeShown.{NodeShown as Shown};
ghost use Rattle.whole_trace.specs.Whole.{WholeTrace};
ghost use Rattle.shown_slot.specs.Trace.{node_text};
ghost use Rattle.wave_text.specs.declared.variable.NodeVariable.TheVariants as of_node;
ghost use Rattle.wave_text.specs.Telling.{line_told, IsRightNode};
ghost use Rattle.wave_text.specs.Values.{node_value};
ghost use Rattle.wave_text.specs.Wave.{wave_lines};

/// Each line of a waveform is one line: its one line feed is its last byte.
pub fn lines_of_waveforms()
    ensures { (trace : WholeTrace) → AllByRecursion (λ line. is_line line ≡ true) (wave_lines trace) }
{}

/// The values of a node's variables after a slot tell its line in the trace, for version 1 and for version 2.
pub fn values_tell_lines()
    ensures narrow { (head : Head) (t k : ℕ) (node : Shown) → head.version ≡ 1 → IsRightNode 16 node
        → line_told 4 t k (node_value 16 of_node.Word node) (node_value 16 of_node.Peer node)
        (node_value 16 of_node.Message node) (node_value 16 of_node.Members node) (node_value 16 of_node.Accepted node)
        (node_value 16 of_node.Rejected node) (node_value 16 of_node.Ack node) (node_value 16 of_node.Clock node)
        ≡ node_text head t k node }
    ensures wide { (head : Head) (t k : ℕ) (node : Shown) → head.version ≡ 2 → IsRightNode 24 node
        → line_told 6 t k (node_value 24 of_node.Word node) (node_value 24 of_node.Peer node)
        (node_value 24 of_node.Message node) (node_value 24 of_node.Members node) (node_value 24 of_node.Accepted node)
        (node_value 24 of_node.Rejected node) (node_value 24 of_node.Ack node) (node_value 24 of_node.Clock node)
        ≡ node_text head t k node }
{}
