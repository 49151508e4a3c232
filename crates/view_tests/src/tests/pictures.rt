//! A small trace, whose picture has each kind of element.
use super::calls::text_of;
use picture_text::put_picture;
use std::alloc::Global;
use ttp_base::{List, MemorySink};
use whole_trace::read_whole;

const TRACE: &str = "ttpbench trace 1 nodes 4 rounds 1 slots 2 schedule 00000a
slot 0 node 0 wait peer - msg - mem 0000 acc 0 rej 0 ack none clock 0
slot 0 node 1 wait peer - msg - mem 0000 acc 0 rej 0 ack none clock 0
slot 0 node 2 wait peer - msg - mem 0000 acc 0 rej 0 ack none clock 0
slot 0 node 3 off peer - msg - mem 0000 acc 0 rej 0 ack none clock -5
slot 1 node 0 start peer 0 msg - mem 0001 acc 1 rej 0 ack first clock 0
slot 1 node 1 join peer 0 msg - mem 0003 acc 1 rej 0 ack none clock 0
slot 1 node 2 join peer 0 msg - mem 0001 acc 1 rej 0 ack none clock 0
slot 1 node 3 denied peer 0 msg - mem 0000 acc 0 rej 0 ack none clock -9
slot 1 host 2 write 1
slot 1 host 1 read 2 0 00
keeps no H6 1
returns yes start 1
";

// The first line of its picture, and others of it, as the rules of docs/VIEWS.md give them.
const HEAD: &str =
    "<svg xmlns=\"http://www.w3.org/2000/svg\" width=\"1140\" height=\"510\" viewBox=\"0 0 1140 510\">\n";

const LINES: &[&str] = &[
    HEAD,
    "<text x=\"12\" y=\"20\">ttpbench trace 1 nodes 4 rounds 1 slots 2 schedule 00000a</text>\n",
    "<text x=\"12\" y=\"40\">shown: slots 1 to 1 of 0 to 1; before: all nodes off or listening</text>\n",
    "<text class=\"said\" x=\"12\" y=\"60\">keeps no H6 1: a fault comes too soon after the start or another fault</text>\n",
    "<path class=\"round\" d=\"M71 117h1v86h-1z\"/>\n",
    "<g class=\"join other\"><title>slot 1 node 1 join peer 0 msg - mem 0003 acc 1 rej 0 ack none clock 0</title>\
    <rect x=\"72\" y=\"140\" width=\"19\" height=\"19\"/><text x=\"81\" y=\"154\">J</text></g>\n",
    "<g class=\"differ\"><title>slot 1 members 0001 of 0 2 0003 of 1</title>\
    <rect x=\"72\" y=\"204\" width=\"19\" height=\"19\"/><text x=\"81\" y=\"218\">!</text></g>\n",
    "<g class=\"apart\"><title>slot 1 clock apart from most -</title>\
    <rect x=\"72\" y=\"244\" width=\"19\" height=\"19\"/><text x=\"81\" y=\"258\">-</text></g>\n",
    "<path class=\"read\" d=\"M91 159h-10l10-10z\"><title>slot 1 host 1 read 2 0 00</title></path>\n",
    "<rect class=\"why\" x=\"92\" y=\"180\" width=\"48\" height=\"19\"/>\n<text class=\"why\" x=\"95\" y=\"194\">denied</text>\n",
    "<path class=\"flag\" d=\"M71 94v106\"/>\n<text class=\"keep\" x=\"68\" y=\"103\">H6</text>\n",
    "<text x=\"97\" y=\"496\">its host reads its status</text>\n</svg>\n",
];

/// Whether a text has all these lines.
pub(crate) fn has_lines(text: &str, lines: &[&str]) -> bool {
    for line in lines {
        if !text.contains(*line) {
            return false;
        }
    }
    true
}

fn is_picture(bytes: &[u8]) -> bool {
    let text = text_of(bytes);
    text.len() == 9409 && has_lines(text, LINES)
}

fn has_picture(alloc: Global) -> bool {
    let Ok(trace) = read_whole(TRACE.as_bytes()) else {
        return false;
    };
    let Ok(mut sink) = MemorySink::new(alloc, 16_000, List::new(alloc)) else {
        return false;
    };
    put_picture(&trace, None, &mut sink).is_ok() && is_picture(sink.bytes())
}

#[test]
fn a_picture(rt: HostRuntime) {
    assert!(rt; has_picture(rt.alloc()));
}
