//! The survey of what a reader gives.

ghost use Rattle.std.specs.Prelude.{◌<◌, ℕ, List, length, IfOk, IfSome};
ghost use Rattle.r10_survey.specs.Surveys.{HasTaken, IsReport};

use r10_survey::{Report, Survey, SurveyFault};
use std::alloc::Global;
use std::io::{self, ErrorKind, Read};
use thiserror::Error;

/// How many bytes are asked for at once.
const WINDOW: usize = 1 << 20;

/// How often the reader is called at most.
const MOST_CALLS: u64 = 1 << 48;

/// Why there is no survey.
#[derive(Debug, Drop, Error)]
pub(crate) enum InputFault {
    #[error("{0}")]
    Survey(SurveyFault),
    #[error("cannot read: {0}")]
    Read(io::Error),
    #[error("cannot read: the input does not end")]
    Endless,
}

/// The survey of every byte that the reader has left. A call that was interrupted is made again.
pub(crate) fn survey_input<R: Read>(alloc: Global, reader: &mut R) -> Result<Report, InputFault>
    ensures { IfOk result (λ report. IfSome (R.remaining reader.old) (λ file. IsReport file report)) }
{
    let mut piece: Vec<u8> = Vec::new(alloc);
    let Ok(()) = piece.resize(WINDOW, 0) else {
        return Err(InputFault::Survey(SurveyFault::OutOfMemory));
    };
    survey_through(alloc, reader, &mut piece)
}

/// The same, read through a window.
fn survey_through<R: Read>(
    alloc: Global,
    reader: &mut R,
    piece: &mut [u8],
) -> Result<Report, InputFault>
    requires { 0 < length piece.old }
    ensures { IfOk result (λ report. IfSome (R.remaining reader.old) (λ file. IsReport file report)) }
{
    let mut survey = Survey::new(alloc);
    let mut calls = 0;
    while calls < MOST_CALLS {
        calls += 1;
        match reader.read(piece) {
            Ok(0) => return ended(survey),
            Ok(count) => {
                survey = match survey.feed(&piece[..count]) {
                    Ok(survey) => survey,
                    Err(fault) => return Err(InputFault::Survey(fault)),
                };
            }
            Err(error) => {
                if error.kind() != ErrorKind::Interrupted {
                    return Err(InputFault::Read(error));
                }
            }
        }
    }
    Err(InputFault::Endless)
}

/// The report of a survey whose file ends here.
fn ended(survey: Survey) -> Result<Report, InputFault>
    ensures { IfOk result (λ report. (file : List ℕ) → HasTaken survey file → IsReport file report) }
{
    match survey.finish() {
        Ok(report) => Ok(report),
        Err(fault) => Err(InputFault::Survey(fault)),
    }
}
