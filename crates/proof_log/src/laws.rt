//! The laws of logs.

ghost use Rattle.proof_log.specs.Accepted.{LogsAreAccepted, LogsHaveNoDefect, LogsMayBeWritten};
ghost use Rattle.proof_log.specs.CleanTexts.{CleanTextsAreLogs};
ghost use Rattle.proof_log.specs.OneText.{LogsHaveOneText};

/// The law of written logs: the grammar accepts the lines of a log from the first to the last, where the proof is not too deep
/// and names rows and slots that are there, and its certificates are fit.
pub fn logs_are_accepted()
    ensures { LogsAreAccepted }
{}

/// The lines of such a log may be written, where its numbers have at most 30 digits and keep their ranges.
pub fn logs_may_be_written()
    ensures { LogsMayBeWritten }
{}

/// The text of such a log has no defect, where its lines may be written: each number has at most 30 digits and keeps its range.
pub fn logs_have_no_defect()
    ensures { LogsHaveNoDefect }
{}

/// The law of texts: two logs over one number of slots are the same where they have one text, and the text of none is a first
/// part of that of another.
pub fn logs_have_one_text()
    ensures { LogsHaveOneText }
{}

/// The law of clean texts: bytes without a text defect are the text of a log, whose lines the grammar takes under the limits.
pub fn clean_texts_are_logs()
    ensures { CleanTextsAreLogs }
{}
