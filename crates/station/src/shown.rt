// How values are printed.
use engine::{Allowance, Layer, Refusal};
use hexadecimal::encode;
use permutation::State;
use std::alloc::Global;
use std::fmt;

// What an engine tells.
#[derive(Clone, Copy)]
pub struct Told(pub Allowance);

impl fmt::Display for Told {
    fn fmt<W: fmt::Write>(&self, f: &mut fmt::Formatter<W>) -> fmt::Result {
        match self.0 {
            Allowance::Limited(runs) => write!(f, "{runs}"),
            Allowance::Unlimited => f.write_str("unlimited"),
        }
    }
}

// The five words of a state.
#[derive(Clone, Copy)]
pub struct Five(pub State);

impl fmt::Display for Five {
    fn fmt<W: fmt::Write>(&self, f: &mut fmt::Formatter<W>) -> fmt::Result {
        let [w0, w1, w2, w3, w4] = self.0;
        write!(f, "{w0:016x},{w1:016x},{w2:016x},{w3:016x},{w4:016x}")
    }
}

// A refusal of any layer, by its number, layer and place.
#[derive(Clone, Copy)]
pub struct Refused<F>(pub F);

impl<F: Refusal> fmt::Display for Refused<F> {
    fn fmt<W: fmt::Write>(&self, f: &mut fmt::Formatter<W>) -> fmt::Result {
        let number = self.0.number();
        let layer = match self.0.layer() {
            Layer::Engine => "engine",
            Layer::Suite => "suite",
            Layer::Link => "link",
        };
        let place = self.0.place();
        write!(f, "refused {number} {layer} {place}")
    }
}

// Whether a call was accepted: `ok`, or its refusal.
#[derive(Clone, Copy)]
pub struct Outcome<F>(pub Result<(), F>);

impl<F: Refusal + Copy> fmt::Display for Outcome<F> {
    fn fmt<W: fmt::Write>(&self, f: &mut fmt::Formatter<W>) -> fmt::Result {
        match self.0 {
            Ok(()) => f.write_str("ok"),
            Err(fault) => {
                let refused = Refused(fault);
                write!(f, "{refused}")
            }
        }
    }
}

// Outputs hold this everywhere before a call, so that the answer shows what the call wrote.
pub const UNWRITTEN: u8 = 0xee;

// Bytes as hexadecimal digits, none as `-`.
// Kept: a text of its own and no `Display`, since the digits come from the proved `encode`, which fills a buffer.
pub fn digits(heap: Global, bytes: &[u8]) -> anyhow::Result<String> {
    if bytes.is_empty() {
        return Ok(String::from_str(heap, "-")?);
    }
    let mut text = vec![in heap; 0; bytes.len().saturating_mul(2)]?;
    if encode(bytes, text.as_mut_slice()).is_err() {
        anyhow::bail!("no room for digits");
    }
    Ok(String::from_utf8(text)?)
}
