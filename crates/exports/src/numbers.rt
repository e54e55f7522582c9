// Each reply as numbers.
ghost use Rattle.std.specs.Prelude.{◌≡◌};
ghost use Rattle.rules.specs.Builder.{builder_reply};
ghost use Rattle.rules.specs.Mapper.{map_reply};
ghost use Rattle.rules.specs.Admission.{admit_reply};
ghost use Rattle.rules.specs.Phase.{slot_reply};
ghost use Rattle.rules.specs.Runs.{run_reply};
ghost use Rattle.rules.specs.SumReading.{sum_reply};
ghost use Rattle.rules.specs.Outcome.{written, refused};
ghost use Rattle.exports.specs.Numbers.{answer, table_answer, mapping_answer, run_numbers, admission_numbers, sum_places, slot_numbers, values_reply, trial_numbers};
ghost use Rattle.rules.specs.Workers.{trial_reply};
ghost use Rattle.sum_reading.specs.Reply.{FewShown};

use crate::{FbsAdmission, FbsReply, FbsRetuned, FbsSlot, FbsSum, FbsTable, FbsTrial, FbsValues};
use retune::Retuned;
use rules::{Reason, Refusal, RunError, Shown, Stats, Table, WorkerRun};
use value_counts::ValueCounts;

fn accepted(count: usize) -> FbsReply
    ensures { answer result ≡ written count }
{
    FbsReply {
        count,
        ..FbsReply::default()
    }
}

fn turned_away(number: usize, line: usize) -> FbsReply
    ensures { answer result ≡ refused number line }
{
    FbsReply {
        number,
        line,
        ..FbsReply::default()
    }
}

impl From<Result<usize, Refusal>> for FbsReply {
    fn from(reply: Result<usize, Refusal>) -> FbsReply
        ensures { answer result ≡ map_reply reply }
    {
        match reply {
            Ok(written) => accepted(written),
            Err(r) => turned_away(r.reason.number(), r.line),
        }
    }
}

impl From<Retuned> for FbsRetuned {
    fn from(reply: Retuned) -> FbsRetuned
        ensures is { mapping_answer result ≡ map_reply reply.result }
        ensures begun { result.begun ≡ reply.begun }
    {
        match reply.result {
            Ok(written) => FbsRetuned {
                count: written,
                begun: reply.begun,
                ..FbsRetuned::default()
            },
            Err(r) => FbsRetuned {
                number: r.reason.number(),
                line: r.line,
                begun: reply.begun,
                ..FbsRetuned::default()
            },
        }
    }
}

impl From<Result<Table, Reason>> for FbsTable {
    fn from(reply: Result<Table, Reason>) -> FbsTable
        ensures { table_answer result ≡ builder_reply reply }
    {
        match reply {
            Ok(table) => FbsTable {
                count: table.count,
                centre: table.centre,
                ..FbsTable::default()
            },
            Err(reason) => FbsTable {
                number: reason.number(),
                ..FbsTable::default()
            },
        }
    }
}

// Document 01 has no number for the last three: 100 to 102 are ours.
impl From<Result<usize, RunError>> for FbsReply {
    #[tactic(auto, unfolding(crate::specs::Numbers::run_numbers))]
    fn from(reply: Result<usize, RunError>) -> FbsReply
        ensures { answer result ≡ run_numbers (run_reply reply) }
    {
        match reply {
            Ok(count) => accepted(count),
            Err(RunError::Unreadable(r)) => turned_away(r.reason.number(), r.line),
            Err(RunError::BadBits) => turned_away(100, 0),
            Err(RunError::ShortBuffer) => turned_away(101, 0),
            Err(RunError::BrokenOff) => turned_away(102, 0),
        }
    }
}

// No document has a number for the second: 103 is ours. A function, since it asks something of the reply, which a `From` may not.
// No ghost field of `Shown` says it: this function alone asks it.
#[tactic(auto, unfolding(crate::specs::Numbers::sum_numbers, crate::specs::Numbers::sum_places))]
pub fn sum_numbers(reply: Result<Option<Shown>, Refusal>) -> FbsSum
    requires { FewShown reply }
    ensures { result ≡ sum_places (sum_reply reply) }
{
    match reply {
        Ok(Some(shown)) => {
            let bits = shown.bits;
            FbsSum {
                count: shown.count,
                bits,
                ..FbsSum::default()
            }
        }
        Ok(None) => FbsSum {
            number: 103,
            ..FbsSum::default()
        },
        Err(r) => FbsSum {
            number: r.reason.number(),
            line: r.line,
            ..FbsSum::default()
        },
    }
}

impl From<Result<usize, Reason>> for FbsSlot {
    fn from(reply: Result<usize, Reason>) -> FbsSlot
        ensures { result ≡ slot_numbers (slot_reply reply) }
    {
        match reply {
            Ok(slot) => FbsSlot {
                slot,
                ..FbsSlot::default()
            },
            Err(reason) => FbsSlot {
                number: reason.number(),
                ..FbsSlot::default()
            },
        }
    }
}

impl From<Result<ValueCounts, Refusal>> for FbsValues {
    fn from(reply: Result<ValueCounts, Refusal>) -> FbsValues
        ensures { result ≡ values_reply reply }
    {
        match reply {
            Ok(values) => FbsValues {
                count: values.count,
                least: values.least,
                ..FbsValues::default()
            },
            Err(r) => FbsValues {
                number: r.reason.number(),
                line: r.line,
                ..FbsValues::default()
            },
        }
    }
}

impl From<Result<WorkerRun, Refusal>> for FbsTrial {
    fn from(reply: Result<WorkerRun, Refusal>) -> FbsTrial
        ensures { trial_numbers result ≡ trial_reply reply }
    {
        match reply {
            Ok(run) => FbsTrial {
                count: run.count,
                ticks: run.ticks,
                ..FbsTrial::default()
            },
            Err(r) => FbsTrial {
                number: r.reason.number(),
                line: r.line,
                ..FbsTrial::default()
            },
        }
    }
}

impl From<Result<Stats, Refusal>> for FbsAdmission {
    #[tactic(auto, unfolding(crate::specs::Numbers::admission_numbers, crate::specs::Numbers::statistics))]
    fn from(reply: Result<Stats, Refusal>) -> FbsAdmission
        ensures { result ≡ admission_numbers (admit_reply reply) }
    {
        let (number, line, stats) = match reply {
            Ok(stats) => (0, 0, stats),
            Err(r) => (r.reason.number(), r.line, Stats::default()),
        };
        FbsAdmission {
            number,
            line,
            inputs: stats.inputs,
            sums: stats.sums,
            boots: stats.boots,
            sources: stats.sources,
            longest: stats.longest,
            norm: stats.norm,
            outputs: stats.outputs,
            depth: stats.depth,
            centre0: stats.centre0,
            centre1: stats.centre1,
            centre2: stats.centre2,
        }
    }
}
