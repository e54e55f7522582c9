// The entries for an evaluator in C, C++ or Rust: include/wonkpecan.h says how to call them. A reply is numbers in a struct, by value:
// C reads it, so it has a number for the reason, a place for each part, and its own names, also where two have the same shape.
// It leans on the entries, and on `rules` for what they answer.
#![tactic(auto)]

mod numbers;

ghost use Rattle.std.specs.Prelude.{◌≡◌, drop};
ghost use Rattle.rules.specs.Builder.{built, builder};
ghost use Rattle.rules.specs.Mapper.{mapper};
ghost use Rattle.rules.specs.Admission.{admission};
ghost use Rattle.rules.specs.Converter.{converter};
ghost use Rattle.rules.specs.Grades.{ones, ones_answer, value_counts, value_counts_answer};
ghost use Rattle.rules.specs.Outcome.{outcome};
ghost use Rattle.rules.specs.Phase.{slot_answer};
ghost use Rattle.rules.specs.Runs.{Numbered, ran, run_circuit, run_network};
ghost use Rattle.rules.specs.SumReading.{sum_reading, sum_answer};
ghost use Rattle.rules.specs.Workers.{trial, trial_answer, tried};
ghost use Rattle.retuning.specs.Kept.{kept_length};
ghost use Rattle.retuning.specs.Retune.{retuned, Decided};
ghost use Rattle.retuning.specs.Safe.{Safe};
ghost use Rattle.exports.specs.Numbers.{mapping_answer, retuned_numbers};
ghost use Rattle.exports.specs.Numbers.{answer, table_answer, admission_numbers, numbered, sum_places, slot_numbers, placed, ones_placed, values_placed, trial_numbers};

use crate::numbers::sum_numbers;

// 0 and the count of bytes or values written, or the number and the line of the refusal.
#[repr(C)]
#[derive(Clone, Copy, Default)]
pub struct FbsReply {
    pub number: usize,
    pub line: usize,
    pub count: usize,
}

// 0, the count of bits written and the centre of the table, or the number; the line is 0.
#[repr(C)]
#[derive(Clone, Copy, Default)]
pub struct FbsTable {
    pub number: usize,
    pub line: usize,
    pub count: usize,
    pub centre: usize,
}

// 0 and the count of bytes written, or the number and the line of the refusal; either way how many gates' mapping the call began.
#[repr(C)]
#[derive(Clone, Copy, Default)]
pub struct FbsRetuned {
    pub number: usize,
    pub line: usize,
    pub count: usize,
    pub begun: usize,
}

// 0 and the statistics, or the number and the line of the refusal.
#[repr(C)]
#[derive(Clone, Copy)]
pub struct FbsAdmission {
    pub number: usize,
    pub line: usize,
    pub inputs: usize,
    pub sums: usize,
    pub boots: usize,
    // different sources of boots
    pub sources: usize,
    pub longest: usize,
    pub norm: usize,
    pub outputs: usize,
    // the largest depth of a node
    pub depth: usize,
    // tables of centre 0, 1 and 2
    pub centre0: usize,
    pub centre1: usize,
    pub centre2: usize,
}

// 0 and the count of bits, or the number and the line; the bits of the terms in their order, 0 in each place that is none of theirs.
#[repr(C)]
#[derive(Clone, Copy, Default)]
pub struct FbsSum {
    pub number: usize,
    pub line: usize,
    pub count: usize,
    pub bits: [u8; 11],
}

// 0, how many values there are and the least of them, or the number and the line.
#[repr(C)]
#[derive(Clone, Copy, Default)]
pub struct FbsValues {
    pub number: usize,
    pub line: usize,
    pub count: usize,
    pub least: i32,
}

// 0, the count of boots and the length of the run, or the number and the line.
#[repr(C)]
#[derive(Clone, Copy, Default)]
pub struct FbsTrial {
    pub number: usize,
    pub line: usize,
    pub count: usize,
    pub ticks: usize,
}

// 0 and the slot, or the number; the line is 0.
#[repr(C)]
#[derive(Clone, Copy, Default)]
pub struct FbsSlot {
    pub number: usize,
    pub line: usize,
    pub slot: usize,
}

// A circuit's text mapped to a network's.
#[unsafe(no_mangle)]
pub extern "C" fn fbs_map(text: &[u8], out: &mut [u8]) -> FbsReply
    ensures { outcome (answer result) out.new ≡ mapper text.now out.old }
{
    FbsReply::from(mapper::map(text, out))
}

// A circuit's text mapped from the chosen gate on, where the state that was kept before it stands in the buffer, else from the first; then it is kept there.
#[unsafe(no_mangle)]
pub extern "C" fn fbs_retune(
    text: &[u8],
    line: usize,
    state: &mut [u8],
    out: &mut [u8],
) -> FbsRetuned
    ensures decided { Decided text.now line state.old → retuned_numbers result out.new state.new ≡ retuned text.now line out.old state.old }
    ensures safe { Safe (mapping_answer result) out.old out.new }
    ensures behind { drop kept_length state.new ≡ drop kept_length state.old }
{
    FbsRetuned::from(retune::retune(text, line, state, out))
}

// A network's text of either edition judged.
#[unsafe(no_mangle)]
pub extern "C" fn fbs_admit(text: &[u8]) -> FbsAdmission
    ensures { result ≡ admission_numbers (admission text.now) }
{
    FbsAdmission::from(admission::admit(text))
}

// A network's text in the other edition.
#[unsafe(no_mangle)]
pub extern "C" fn fbs_convert(text: &[u8], out: &mut [u8]) -> FbsReply
    ensures { outcome (answer result) out.new ≡ converter text.now out.old }
{
    FbsReply::from(convert::convert(text, out))
}

// A bootstrap table from rows, a value and a truth each, and its centre.
#[unsafe(no_mangle)]
pub extern "C" fn fbs_build_table(
    p: usize,
    m: usize,
    values: &[i32],
    truths: &[u8],
    out: &mut [u8],
) -> FbsTable
    ensures { built (table_answer result) out.new ≡ builder p m values.now truths.now out.old }
{
    FbsTable::from(builder::composed_bootstrap_table(p, m, values, truths, out))
}

// A circuit run on a bit for each input.
#[unsafe(no_mangle)]
pub extern "C" fn fbs_run_circuit(text: &[u8], bits: &[u8], values: &mut [u8]) -> FbsReply
    ensures { ran (Numbered (answer result)) values.new ≡ numbered (run_circuit text.now bits.now values.old) }
{
    FbsReply::from(circuit_run::run_circuit(text, bits, values))
}

// A network run on a bit for each input.
#[unsafe(no_mangle)]
pub extern "C" fn fbs_run_network(text: &[u8], bits: &[u8], values: &mut [i64]) -> FbsReply
    ensures { ran (Numbered (answer result)) values.new ≡ numbered (run_network text.now bits.now values.old) }
{
    FbsReply::from(network_run::run_network(text, bits, values))
}

// The first bits for the nodes that a `lin` adds with which its sum is the value.
#[unsafe(no_mangle)]
pub extern "C" fn fbs_sum_reading(text: &[u8], node: usize, value: i32) -> FbsSum
    ensures { result ≡ sum_places (sum_answer (sum_reading text.now node value)) }
{
    sum_numbers(sum_reading::sum_reading(text, node, value))
}

// At how many assignments of a network's inputs each output is 1.
#[unsafe(no_mangle)]
pub extern "C" fn fbs_ones(text: &[u8], counts: &mut [u32; 32]) -> FbsReply
    ensures { placed (answer result) counts.new ≡ ones_placed (ones_answer (ones text.now) counts.old) }
{
    FbsReply::from(grades::ones(text, counts))
}

// At how many assignments of its terms a `lin` has each value, from the least to the greatest.
#[unsafe(no_mangle)]
pub extern "C" fn fbs_value_counts(text: &[u8], node: usize, counts: &mut [u32; 342]) -> FbsValues
    ensures { placed result counts.new ≡ values_placed (value_counts_answer (value_counts text.now node) counts.old) }
{
    FbsValues::from(value_counts::value_counts(text, node, counts))
}

// A network's boots run with so many workers, each lasting so many ticks: the tick at which each begins.
#[unsafe(no_mangle)]
pub extern "C" fn fbs_trial(
    text: &[u8],
    workers: usize,
    ticks: usize,
    starts: &mut [u32; 671],
) -> FbsTrial
    ensures { tried (trial_numbers result) starts.new ≡ trial_answer (trial text.now workers ticks) starts.old }
{
    FbsTrial::from(workers::trial(text, workers, ticks, starts))
}

// The slot where a value with an error is found.
#[unsafe(no_mangle)]
pub extern "C" fn fbs_find_slot(p: usize, value: i32, error: i32) -> FbsSlot
    ensures { result ≡ slot_numbers (slot_answer p value error) }
{
    FbsSlot::from(phase::slot(p, value, error))
}
