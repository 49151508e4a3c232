//! Laws over the definitions. The functions do nothing; their contracts are the laws.
ghost use Rattle.std.specs.Prelude.{◌≡◌, ℕ, ◌≤◌, true, false, List, length, map, filter, Option, Ok};
ghost use Rattle.std.specs.List.{AllByRecursion, list_any};
ghost use Rattle.ttp_base.specs.Text.{is_line};
ghost use Rattle.whole_campaign.specs.Whole.{WholeCampaign, campaign_in};
ghost use Rattle.picture_text.specs.declared.window.Span.{Span as Slots};
ghost use Rattle.view_laws.specs.Titles.{titles_in, titles, is_markup, texts_of_lines};
ghost use Rattle.chart_text.specs.Chart.{chart_lines};
ghost use Rattle.view_laws.specs.Marks.{is_mark, is_fault_line, lines_drawn};

/// Each line of the chart of a text that is a campaign is one line: its one line feed is its last byte.
pub fn lines_of_charts()
    ensures { (text : List ℕ) (campaign : WholeCampaign) (asked : Option Slots) → campaign_in text ≡ Ok campaign
        → AllByRecursion (λ line. is_line line ≡ true) (chart_lines campaign asked) }
{}

/// The marks of the chart of a text that is a campaign, which are its paths whose class is a look: their titles are the
/// lines of those faults whose slot is shown and whose look is not `same`, in the order of the text (`marks`). No line of
/// the chart has two titles (`once`), and none has a byte that would need an escape (`plain`).
pub fn marks_of_charts()
    ensures marks { (text : List ℕ) (campaign : WholeCampaign) (asked : Option Slots) → campaign_in text ≡ Ok campaign
        → titles (filter is_mark (chart_lines campaign asked)) ≡ lines_drawn campaign asked }
    ensures once { (text : List ℕ) (campaign : WholeCampaign) (asked : Option Slots) → campaign_in text ≡ Ok campaign
        → AllByRecursion (λ line. length (titles_in line) ≤ 1) (chart_lines campaign asked) }
    ensures plain { (text : List ℕ) (campaign : WholeCampaign) (asked : Option Slots) → campaign_in text ≡ Ok campaign
        → AllByRecursion (λ title. list_any is_markup title ≡ false) (titles (chart_lines campaign asked)) }
{}

/// The lines of the faults of a text that is a campaign are those of its lines that begin with `slot` and a number, in their
/// order.
pub fn faults_are_lines()
    ensures { (text : List ℕ) (campaign : WholeCampaign) → campaign_in text ≡ Ok campaign
        → map (λ fault. fault.text) campaign.faults ≡ filter is_fault_line (texts_of_lines text) }
{}
