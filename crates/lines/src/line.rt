// The output line of one word (document 01, "stemlist"). Each stage runs once, but for the postlude, which pass and whole run have of two texts.
ghost use Rattle.std.specs.Prelude.{◌≡◌, cond, ◌+◌, ◌-◌, ◌≤◌, length, IfOk};
ghost use Rattle.turkish.specs.Letters.{tab, has};
ghost use Rattle.theorems.specs.Simple.Harmony.{more_than_one_syllable};
ghost use Rattle.turkish.specs.Calls.{chars, pass_text, whole_text};
ghost use Rattle.turkish.specs.Refusals.{refusal_number, result_number};
ghost use Rattle.stages.specs.Outcome.{outcome_of};
ghost use Rattle.repairs.specs.Repairs.{letter_bytes, repair_text};
ghost use Rattle.outputs.specs.Runs.{run_text};
ghost use Rattle.writing.specs.Put.{put};
ghost use Rattle.lines.specs.Line.{line_refusal_of, answers, fields, refused_line, list_line};
ghost use Rattle.lines.specs.Room.{line_room};

use outputs::run;
use outputs::run::Run;
use refusals::refusal::Word;
use repairs::postlude;
use repairs::postlude::Repair;
use stages::stage::Outcome;
use stages::{stage, syllable};
use turkish::refusal::Refusal;
use writing::put;

const YES: u8 = 0x59;

const NO: u8 = 0x4E;

const ONE: u8 = 0x31;

const ZERO: u8 = 0x30;

// Whether a tab stands in the line.
fn has_tab(w: &[u8]) -> bool
    ensures { result ≡ has w.now tab }
{
    w.contains(&put::TAB)
}

// The word of a line, where the line is not refused: as any word is, or for a tab.
fn word_of(w: &[u8]) -> Result<Word<'_>, Refusal>
    ensures number { result_number result ≡ line_refusal_of w.now }
    ensures same { IfOk result (λ word. word.bytes.now ≡ w.now) }
{
    let word = Word::new(w)?;
    if has_tab(w) {
        return Err(Refusal::HasTab);
    }
    Ok(word)
}

// One of two bytes, by an answer. A function of its own, so that what is written by three answers is told without their eight cases.
fn either(t: bool, yes: u8, no: u8) -> u8
    ensures { result ≡ cond t yes no }
{
    if t {
        return yes;
    }
    no
}

// Writes syllable check, stage and flag, each between tabs.
fn put_answers(out: &mut [u8], at: usize, syllable: bool, yes: bool, flag: bool) -> usize
    requires { at + 7 ≤ length out.old }
    ensures value { result ≡ at + 7 }
    ensures out_after { out.new ≡ put at (answers syllable yes flag) out.old }
{
    let answers = [
        put::TAB,
        either(syllable, YES, NO),
        put::TAB,
        either(yes, YES, NO),
        put::TAB,
        either(flag, ONE, ZERO),
        put::TAB,
    ];
    put::put_all(out, at, &answers)
}

// Writes the text of a repair of w.
fn put_repair(out: &mut [u8], at: usize, w: &[u8], r: Repair) -> usize
    requires keep_in_bounds { r.keep ≤ length w.now }
    requires more_in_bounds { at + (r.keep + length (letter_bytes r.letter)) ≤ length out.old }
    ensures value { result ≡ at + length (repair_text w.now r) }
    ensures out_after { out.new ≡ put at (repair_text w.now r) out.old }
{
    let a = put::put_bytes(out, at, w, r.keep);
    let Some(letter) = r.letter else {
        return a;
    };
    letter.put(out, a)
}

// Writes the pass's text of a word whose syllable answer and stage are known.
fn put_pass(out: &mut [u8], at: usize, word: Word, syllable: bool, s: Outcome) -> usize
    requires syllable_value { syllable ≡ more_than_one_syllable (chars word.bytes.now) }
    requires s_value { s ≡ outcome_of word.bytes.now }
    requires w_in_bounds { at + (length word.bytes.now + 2) ≤ length out.old }
    ensures value { result ≡ at + length (pass_text word.entry.bytes.now) }
    ensures out_after { out.new ≡ put at (pass_text word.entry.bytes.now) out.old }
{
    let w = word.bytes;
    if !syllable {
        return put::put_bytes(out, at, w, w.len());
    }
    let kept = s.kept;
    if !s.flag {
        return put::put_bytes(out, at, w, kept);
    }
    put_repair(out, at, w, postlude::postlude(w, kept))
}

// Writes the text of a run over w.
fn put_run(out: &mut [u8], at: usize, w: &[u8], r: Run) -> usize
    requires keep_in_bounds { r.repair.keep ≤ length w.now }
    requires from_le_upto { r.from ≤ r.upto }
    requires upto_in_bounds { r.upto ≤ length w.now }
    requires from_in_bounds { at + (r.repair.keep + length (letter_bytes r.repair.letter) + (r.upto - r.from)) ≤ length out.old }
    ensures value { result ≡ at + length (run_text w.now r) }
    ensures out_after { out.new ≡ put at (run_text w.now r) out.old }
{
    let from = r.from;
    let upto = r.upto;
    let a = put_repair(out, at, w, r.repair);
    put::put_bytes(out, a, &w[from..upto], upto - from)
}

// Writes the whole run's text of a word whose syllable answer and stage are known.
fn put_whole(out: &mut [u8], at: usize, word: Word, syllable: bool, s: Outcome) -> usize
    requires syllable_value { syllable ≡ more_than_one_syllable (chars word.bytes.now) }
    requires s_value { s ≡ outcome_of word.bytes.now }
    requires w_in_bounds { at + (length word.bytes.now + 2) ≤ length out.old }
    ensures value { result ≡ at + length (whole_text word.entry.bytes.now) }
    ensures out_after { out.new ≡ put at (whole_text word.entry.bytes.now) out.old }
{
    let w = word.bytes;
    if !syllable {
        return put::put_bytes(out, at, w, w.len());
    }
    put_run(out, at, w, run::whole_of(w, s))
}

// Writes the line of a word that is not refused.
fn put_fields(out: &mut [u8], at: usize, word: Word) -> usize
    requires { at + line_room ≤ length out.old }
    ensures value { result ≡ at + length (fields word.entry.bytes.now) }
    ensures out_after { out.new ≡ put at (fields word.entry.bytes.now) out.old }
{
    let w = word.bytes;
    let syllable = syllable::more_than_one_syllable_word(w, w.len());
    let s = stage::stem_nominal_verb_suffixes(w);
    let a = put::put_bytes(out, at, w, w.len());
    let b = put_answers(out, a, syllable, s.yes, s.flag);
    let c = put::put_bytes(out, b, w, s.kept);
    let d = put::put_byte(out, c, put::TAB);
    let e = put_pass(out, d, word, syllable, s);
    let f = put::put_byte(out, e, put::TAB);
    let g = put_whole(out, f, word, syllable, s);
    put::put_byte(out, g, put::LF)
}

// Writes a refused line: `!`, one tab and the refusal's number, and nothing of the word.
fn put_refused(out: &mut [u8], at: usize, r: Refusal) -> usize
    requires { at + 4 ≤ length out.old }
    ensures value { result ≡ at + 4 }
    ensures out_after { out.new ≡ put at (refused_line (refusal_number r)) out.old }
{
    let n = u32::from(r);
    let a = put::put_byte(out, at, 0x21);
    let b = put::put_byte(out, a, put::TAB);
    let c = put::put_byte(out, b, (0x30 + n) as u8);
    put::put_byte(out, c, put::LF)
}

// Writes the output line of one word at place `at`, refused or not, and gives the place after it.
pub fn put_line(out: &mut [u8], at: usize, w: &[u8]) -> usize
    requires { at + line_room ≤ length out.old }
    ensures value { result ≡ at + length (list_line w.now) }
    ensures out_after { out.new ≡ put at (list_line w.now) out.old }
{
    match word_of(w) {
        Ok(word) => put_fields(out, at, word),
        Err(r) => put_refused(out, at, r),
    }
}
