//! Reading one record of a trace.

ghost use Rattle.std.specs.Prelude.{◌≡◌, ◌≢◌, ◌∷◌, [], length, Some, None, IfSome, IfNone, IfOk, IsTrue, ◌↔◌, option_map};
ghost use Rattle.csv.specs.Records.{fields_of};
ghost use Rattle.nm_trace.specs.References.{IsReference, record_of, header};
ghost use Rattle.nm_trace.specs.Records.{fields_in, value_in, numbers_in, ranged_reference, reference_in};

use crate::fault::TraceFault;
use crate::reference::Reference;
use csv::ByteRecord;
use nm_text::{is_text, read_number};

/// The most processors.
const CPUS: u64 = 16;
/// The bytes of a word.
const WORD_BYTES: u64 = 8;

/// The reference of a record, or the first fault of the record alone.
pub fn read_reference(fields: &ByteRecord) -> Result<Reference, TraceFault>
    ensures read { result ≡ reference_in (fields_of fields.now) }
    ensures spelled { IfOk result (λ r. (fields_of fields.now ≡ record_of r) × IsReference r) }
{
    reference_of(fields)
}

/// The reference of a record, or the first fault of the record alone.
fn reference_of(fields: &ByteRecord) -> Result<Reference, TraceFault>
    ensures { result ≡ reference_in (fields_of fields.now) }
{
    match number_fields(fields) {
        None => Err(TraceFault::BadRecord),
        Some((cpu, address, value)) => match read_numbers(cpu, address, value) {
            None => Err(TraceFault::BadNumber),
            Some(reference) => ranged(reference),
        },
    }
}

/// The fields of a record of four.
fn four_fields(fields: &ByteRecord) -> Option<(&[u8], &[u8], &[u8], &[u8])>
    ensures some { IfSome result (λ f. fields_of fields.now ≡ f.0.now ∷ f.1.now ∷ f.2.now ∷ f.3.now ∷ []) }
    ensures none { IfNone result (length (fields_of fields.now) ≢ 4) }
{
    if fields.len() != 4 {
        return None;
    }
    let a = fields.get(0)?;
    let b = fields.get(1)?;
    let c = fields.get(2)?;
    let d = fields.get(3)?;
    Some((a, b, c, d))
}

/// The fields that are to be numbers: the processor, the address, and for a store the value.
fn number_fields(fields: &ByteRecord) -> Option<(&[u8], &[u8], Option<&[u8]>)>
    ensures some { IfSome result (λ f. fields_in (fields_of fields.now) ≡ Some (f.0.now, f.1.now, option_map (λ s. s.now) f.2)) }
    ensures none { IfNone result (fields_in (fields_of fields.now) ≡ None) }
{
    let (cpu, kind, address, value) = four_fields(fields)?;
    let value = value_field(kind, value)?;
    Some((cpu, address, value))
}

/// The value that is to be a number: that of a store. A load has none.
fn value_field<'a>(kind: &[u8], value: &'a [u8]) -> Option<Option<&'a [u8]>>
    ensures { option_map (λ o. option_map (λ s. s.now) o) result ≡ value_in kind.now value.now }
{
    if is_text(kind, b"w") {
        Some(Some(value))
    } else if is_text(kind, b"r") && is_text(value, b"") {
        Some(None)
    } else {
        None
    }
}

/// The reference that these fields spell.
#[tactic(auto, unfolding(crate::specs::Records::numbers_in))]
fn read_numbers(cpu: &[u8], address: &[u8], value: Option<&[u8]>) -> Option<Reference>
    ensures { result ≡ numbers_in (cpu.now, address.now, option_map (λ s. s.now) value.entry) }
{
    let cpu = read_number(cpu)?;
    let address = read_number(address)?;
    match value {
        None => Some(Reference {
            cpu,
            address,
            value: None,
        }),
        Some(field) => {
            let value = read_number(field)?;
            Some(Reference {
                cpu,
                address,
                value: Some(value),
            })
        }
    }
}

/// The reference, where its processor and its address can be.
fn ranged(reference: Reference) -> Result<Reference, TraceFault>
    ensures { result ≡ ranged_reference reference }
{
    if reference.cpu < CPUS && reference.address % WORD_BYTES == 0 {
        Ok(reference)
    } else {
        Err(TraceFault::OutOfRange)
    }
}

/// Whether the record is the header.
pub fn is_header(fields: &ByteRecord) -> bool
    ensures { IsTrue result ↔ (fields_of fields.now ≡ header) }
{
    match four_fields(fields) {
        None => false,
        Some((cpu, kind, address, value)) => {
            is_text(cpu, b"cpu")
                && is_text(kind, b"kind")
                && is_text(address, b"address")
                && is_text(value, b"value")
        }
    }
}
