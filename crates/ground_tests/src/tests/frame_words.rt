//! The laws of check words and of frames, called once each.
use ttp_base::NodeSet;
use ttp_frame::FrameIn;
use ttp_world::CState;

#[test]
fn laws_of_check_words() {
    ttp_frame::check_word::laws::words_combine();
    ttp_frame::check_word::laws::own_word_gives_zero();
    ttp_frame::check_word::laws::bursts_change_the_word();
}

#[test]
fn laws_of_frames() {
    let frame = FrameIn {
        wide: true,
        header: 2,
        cstate: CState {
            time: 1,
            round: 0,
            slot: 2,
            members: NodeSet::empty(),
        },
        payload: b"a",
    };
    let other = FrameIn {
        payload: b"b",
        ..frame
    };
    ttp_frame::laws::flipped(&[0, 1, 0, 0, 0, 0, 0, 0, 0, 0, 0, 0], &frame, &other, 7);
    ttp_frame::laws::members_told();
}
