//! ENUM and SET.

ghost use Rattle.std.specs.Prelude.{◌≡◌, ◌++◌, ◌%◌, ◌==◌, [], if◌then◌else◌, List, ℕ, OnOk, length, map};
ghost use Rattle.log_values.specs.Comma.{comma_bytes};
ghost use Rattle.log_values.specs.Labels.{label_fits, label_text, with_label, labels_text, bits_left};

use crate::comma::{Comma, put_comma};
use crate::digits::put;
use std::alloc::AllocError;

/// Whether a number is one of a label, or 0.
pub(crate) fn label_fits(labels: &[&[u8]], n: u64) -> bool
    ensures { result ≡ label_fits (map (λ b. b.now) labels.now) n }
{
    n <= labels.len() as u64
}

/// Appends the label of a number.
pub(crate) fn put_label(out: &mut Vec<u8>, labels: &[&[u8]], n: u64) -> Result<(), AllocError>
    ensures { OnOk result (out.new.items ≡ out.old.items ++ label_text (map (λ b. b.now) labels.now) n) }
{
    if n == 0 {
        return Ok(());
    }
    match usize::try_from(n - 1) {
        Ok(place) => match labels.get(place) {
            Some(label) => put(out, label),
            None => Ok(()),
        },
        Err(_) => Ok(()),
    }
}

/// Whether no bit is 1 behind those of the labels.
pub(crate) fn are_bits(labels: &[&[u8]], n: u64) -> bool
    ensures { result ≡ (bits_left (length labels.now) n == 0) }
{
    let mut left = n;
    for _ in 0..labels.len() {
        left /= 2;
    }
    left == 0
}

/// Appends one more label to what is written of them from a place on: behind a comma, where anything is.
fn put_next(out: &mut Vec<u8>, begin: usize, comma: Comma, label: &[u8]) -> Result<(), AllocError>
    ensures { OnOk result ((before written : List ℕ) → length before ≡ begin → out.old.items ≡ before ++ written → out.new.items ≡ before ++ with_label (comma_bytes comma) written label.now) }
{
    if out.len() <= begin {
        return put(out, label);
    }
    put_comma(out, comma)?;
    put(out, label)
}

/// Appends a label so, if the lowest bit is 1.
fn put_bit(
    out: &mut Vec<u8>,
    begin: usize,
    comma: Comma,
    label: &[u8],
    bits: u64,
) -> Result<(), AllocError>
    ensures { OnOk result ((before written : List ℕ) → length before ≡ begin → out.old.items ≡ before ++ written → out.new.items ≡ before ++ (if bits % 2 == 1 then with_label (comma_bytes comma) written label.now else written)) }
{
    if bits % 2 == 1 {
        return put_next(out, begin, comma, label);
    }
    Ok(())
}

/// Appends the labels whose bits are 1.
pub(crate) fn put_labels(
    out: &mut Vec<u8>,
    comma: Comma,
    labels: &[&[u8]],
    n: u64,
) -> Result<(), AllocError>
    ensures { OnOk result (out.new.items ≡ out.old.items ++ labels_text (comma_bytes comma) [] (map (λ b. b.now) labels.now) n) }
{
    let begin = out.len();
    let mut left = n;
    for label in labels {
        put_bit(out, begin, comma, label, left)?;
        left /= 2;
    }
    Ok(())
}
