//! The first line of a piece.
ghost use Rattle.std.specs.Prelude.{◌≡◌, IfSome, IsTrue};
ghost use Rattle.whole_campaign.specs.Runs.{campaign_form, campaign_said, is_campaign_head, head_of_line};
ghost use Rattle.whole_campaign.specs.Words.{line_said};

use crate::cut::without_feed;
use line_form::Reader;

/// What the first line of a piece says.
#[derive(Clone, Copy)]
pub struct CampaignHead {
    pub nodes: u8,
    pub slots: u32,
    pub first: u32,
    pub last: u32,
}

fn is_campaign_head(head: &CampaignHead) -> bool
    ensures { result ≡ is_campaign_head head.now }
{
    4 <= head.nodes
        && head.nodes <= 24
        && 1 <= head.slots
        && head.slots <= 20_000
        && head.first <= head.last
}

// What a line says, without its line feed, whatever its numbers are.
fn campaign_said(bytes: &[u8]) -> Option<CampaignHead>
    ensures { result ≡ line_said campaign_form campaign_said bytes.now }
{
    let mut line = Reader::of(bytes);
    let nodes = line.byte("ttplab campaign 1 nodes ");
    let slots = line.number(" slots ", 100_000) as u32;
    let first = line.number(" from ", 1_000_000_000) as u32;
    let last = line.number(" to ", 1_000_000_000) as u32;
    line.close(CampaignHead {
        nodes,
        slots,
        first,
        last,
    })
}

/// What a line says, if it is the first one of a piece. Its numbers are within their limits.
#[tactic(auto, unfolding(crate::specs::Runs::head_of_line, crate::specs::Runs::campaign_head_in))]
pub(crate) fn head_of_line(line: &[u8]) -> Option<CampaignHead>
    ensures value { result ≡ head_of_line line.now }
    ensures within { IfSome result (λ h. IsTrue (is_campaign_head h)) }
{
    let bytes = without_feed(line)?;
    let head = campaign_said(bytes)?;
    if is_campaign_head(&head) {
        Some(head)
    } else {
        None
    }
}
