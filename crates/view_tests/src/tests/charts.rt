//! A campaign over one node in one slot, and its chart. The lines come from the description of the format.
use super::calls::text_of;
use super::pictures::has_lines;
use chart_text::put_chart;
use std::alloc::Global;
use ttp_base::{List, MemorySink};
use whole_campaign::{Campaign, FaultLine, Faults, Piece, Pieces, read_campaign};

const CAMPAIGN: &str = "ttplab campaign 1 nodes 5 slots 45 from 22 to 22
slot - node - keeps yes start 10 left - hurt - split - - end 001f fault -
slot 22 node 0 keeps yes start 10 left 0:25:clique hurt - split - - end 001e fault receive 0 AB silence 22 22
slot 22 node 0 keeps yes start 10 left 0:25:clique hurt - split - - end 001e fault receive 0 AB noise 22 22
slot 22 node 0 keeps yes start 10 left - hurt - split - - end 001f fault receive 0 A silence 22 22
slot 22 node 0 keeps yes start 10 left - hurt - split - - end 001f fault receive 0 A noise 22 22
slot 22 node 0 keeps yes start 10 left - hurt - split - - end 001f fault receive 0 B silence 22 22
slot 22 node 0 keeps yes start 10 left - hurt - split - - end 001f fault receive 0 B noise 22 22
slot 22 node 0 keeps yes start 10 left 0:30:unacknowledged hurt - split - - end 001e fault receive 0 AB silence 22 44
slot 22 node 0 keeps yes start 10 left 0:25:clique hurt - split - - end 001e fault receive 0 AB noise 22 44
slot 22 node 0 keeps yes start 10 left - hurt - split - - end 001f fault receive 0 A silence 22 44
slot 22 node 0 keeps yes start 10 left - hurt - split - - end 001f fault receive 0 A noise 22 44
slot 22 node 0 keeps yes start 10 left - hurt - split - - end 001f fault receive 0 B silence 22 44
slot 22 node 0 keeps yes start 10 left - hurt - split - - end 001f fault receive 0 B noise 22 44
slot 22 node 0 keeps yes start 10 left 0:25:clique hurt - split - - end 001e fault jump 0 4 22
slot 22 node 0 keeps yes start 10 left 0:25:clique hurt - split - - end 001e fault jump 0 -4 22
slot 22 node 0 keeps no H3 22 left - hurt - split - - end 001f fault jump 0 1 22
slot 22 node 0 keeps no H3 22 left - hurt - split - - end 001f fault jump 0 -1 22
kept 14 same 8 hurt 0 split 0 torn 0 dead 0
broken 2 same 2 hurt 0 split 0 torn 0 dead 0
";

const HEAD: &str =
    "<svg xmlns=\"http://www.w3.org/2000/svg\" width=\"1320\" height=\"930\" viewBox=\"0 0 1320 930\">\n";

const LINES: &[&str] = &[
    HEAD,
    "<text class=\"said\" x=\"12\" y=\"20\">0 of 16 faults are harmful; the most healthy nodes that one of them costs: \
    0 of 5</text>\n",
    "<text x=\"12\" y=\"98\">14 faults within the single-fault hypothesis: 8 changed nothing, 0 cost healthy nodes, \
    0 split them, 0 left several memberships, 0 left no two nodes together</text>\n",
    "<g class=\"cost\"><title>slot 22 node 0 faults 16, same 8, same out 2, cost 6</title>\
    <rect x=\"72\" y=\"160\" width=\"22\" height=\"15\"/><text x=\"83\" y=\"172\"></text></g>\n",
    "<path class=\"cost\" d=\"M93 177h2v4h-2z\"><title>slot 22 node 0 keeps yes start 10 left 0:25:clique hurt - split - - \
    end 001e fault jump 0 -4 22</title></path>\n",
    "<g class=\"cost\"><title>slot 22 faults 16, same 8, same out 2, cost 6</title>\
    <rect x=\"72\" y=\"315\" width=\"22\" height=\"15\"/><text x=\"83\" y=\"327\"></text></g>\n",
    "<text class=\"said\" x=\"12\" y=\"376\">no fault is harmful</text>\n",
];

fn is_chart(bytes: &[u8]) -> bool {
    let text = text_of(bytes);
    text.starts_with(HEAD) && has_lines(text, LINES) && text.ends_with("</svg>\n")
}

fn has_chart(alloc: Global) -> bool {
    let Ok(campaign) = read_campaign(CAMPAIGN.as_bytes()) else {
        return false;
    };
    let Ok(mut sink) = MemorySink::new(alloc, 60_000, List::new(alloc)) else {
        return false;
    };
    put_chart(alloc, &campaign, None, &mut sink).is_ok() && is_chart(sink.bytes())
}

#[test]
fn a_chart(rt: HostRuntime) {
    assert!(rt; has_chart(rt.alloc()));
}

fn has_values(campaign: &Campaign) -> bool {
    campaign.nodes() == 5
        && campaign.slots() == 45
        && campaign.own().cost == b"left - hurt - split - - end 001f".as_slice()
}

fn is_piece(piece: &Piece) -> bool {
    piece.first == 22 && piece.last == 22 && piece.kept.runs == 14 && piece.broken.runs == 2
}

fn has_one_piece(mut pieces: Pieces) -> bool {
    match pieces.next_piece() {
        Some(piece) => is_piece(&piece) && pieces.next_piece().is_none(),
        None => false,
    }
}

fn is_first(fault: &FaultLine) -> bool {
    let shown = &fault.shown;
    shown.slot == 22
        && shown.node == 0
        && shown.hurt == 0
        && fault.text.ends_with(b"fault receive 0 AB silence 22 22")
}

fn has_faults(mut faults: Faults) -> bool {
    let Some(first) = faults.next_fault() else {
        return false;
    };
    match faults.next_fault() {
        Some(second) => {
            is_first(&first) && second.text.ends_with(b"fault receive 0 AB noise 22 22")
        }
        None => false,
    }
}

fn is_read(text: &[u8]) -> bool {
    match read_campaign(text) {
        Ok(campaign) => {
            has_values(&campaign)
                && has_one_piece(campaign.pieces())
                && has_faults(campaign.faults())
        }
        Err(_) => false,
    }
}

#[test]
fn what_a_campaign_says(rt: HostRuntime) {
    assert!(rt; is_read(CAMPAIGN.as_bytes()));
}
