// The report of a turn.
ghost use Rattle.std.specs.Prelude.{◌≡◌};
ghost use Rattle.device.specs.Answer.{answer_number};
ghost use Rattle.capi.specs.Report.{report_words, report_bytes};

use crate::lent::put_words;
use command::outcome::number;
use device::turn::Answer;

const REPORT_WORDS: usize = 11;

pub const REPORT_BYTES: usize = 4 * REPORT_WORDS;

#[tactic(auto, unfolding(crate::specs::Report::report_words, device::specs::Answer::values_of))]
pub fn report_words(answer: Answer) -> [u32; REPORT_WORDS]
    ensures { result ≡ report_words answer }
{
    match answer {
        Answer::Refused(why) => [why.into(), 0, 0, 0, 0, 0, 0, 0, 0, 0, 0],
        Answer::Idle => [1, 0, 0, 0, 0, 0, 0, 0, 0, 0, 0],
        Answer::Served(report) => {
            let outcome = report.outcome;
            let site = report.site;
            [
                0,
                report.ring,
                number(outcome),
                report.fence.unwrap_or(0),
                report.words,
                u32::from(report.irq),
                u32::from(report.fence.is_some()),
                site.address,
                site.place,
                site.group,
                site.thread,
            ]
        }
    }
}

// Also returns the first word, which is the answer's number.
#[tactic(auto, unfolding(crate::specs::Report::report_words, crate::specs::Report::report_bytes))]
pub fn put_report(report: &mut [u8; REPORT_BYTES], answer: Answer) -> u32
    ensures { (report.new ≡ report_bytes answer) × (result ≡ answer_number answer) }
{
    let words = report_words(answer);
    put_words(report, 0, &words);
    words[0]
}
