// The answer where there is nothing to do.
ghost use Rattle.std.specs.Prelude.{◌≡◌, ◌∷◌, [], IfOk};
ghost use Rattle.stock_report.specs.Lines.{lines_of};
ghost use Rattle.planner_top.specs.Stops.{stop_row};
ghost use Rattle.cert_files.specs.Certificates.{bytes_in};
ghost use Rattle.planner_top.specs.Answers.{IsRefusal, IsTextOf, ending_of};

use crate::answer::{Answer, Ending};
use crate::stop::Stop;
use service_model::NoMemory;
use stage_file::Text;
use std::alloc::Global;
use stock_report::{refused_text, too_long_text, words_text};

/// The line of a refusal, with how the run ends.
pub fn refusal_of(alloc: Global, stop: Stop) -> Result<Answer, NoMemory>
    ensures { IfOk result (λ a. IsTextOf a.text (λ rows. IsRefusal a.ending rows 0 (bytes_in a.cert) stop)) }
{
    let text = stop_text(alloc, stop)?;
    Ok(Answer {
        ending: ending_of(stop),
        text,
        cert: None,
    })
}

fn stop_text(alloc: Global, stop: Stop) -> Result<Text, NoMemory>
    ensures { IfOk result (λ text. text ≡ lines_of (stop_row stop ∷ [])) }
{
    match stop {
        Stop::Words(fault) => words_text(alloc, fault),
        Stop::TooLong(file) => too_long_text(alloc, file),
        Stop::Refused(fault) => refused_text(alloc, fault),
    }
}

fn ending_of(stop: Stop) -> Ending
    ensures { result ≡ ending_of stop }
{
    match stop {
        Stop::Words(_) => Ending::Words,
        Stop::TooLong(_) => Ending::TooLong,
        Stop::Refused(_) => Ending::Refused,
    }
}
