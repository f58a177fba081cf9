// The converter of a drive's record (document 02, 2026-06): from kind 1 to kind 2, whose device path has sixteen bytes, and back.
#![tactic(auto)]

ghost use Rattle.std.specs.Prelude.{◌≡◌, length};
ghost use Rattle.logic.specs.Logic.{pick};
ghost use Rattle.convert.specs.Convert.{answer, is_record, converts, converted_bytes, up_answer, up_out, down_answer, down_out};

// The number of a refusal.
pub const CONVERSION: u8 = 10;

// A record that cannot be converted, or a buffer of another size: refused with 10.
#[derive(Clone, Copy, PartialEq, Eq, Debug)]
pub struct Unconvertible;

// The bytes are as many as a record of that kind has, and say so.
#[tactic(auto, using(crate::proofs::ConvertLaws::least), unfolding(crate::specs::Convert::is_record))]
fn is_record(r: &[u8], kind: u16) -> bool
    ensures { result ≡ is_record kind r.now }
{
    let size = drive::length_of(kind);
    r.len() == size as usize && words::get::<u16>(r, 0) == size && words::get::<u16>(r, 2) == kind
}

// From one kind to another: a sound record of the one whose drive the other can say too, and room for it. Kind 1
// cannot say the last eight bytes of the device path, nor the type I2O; a sound record of kind 1 has neither. Else
// refused, and nothing is written.
#[tactic(auto, using(crate::proofs::ConvertLaws::decodable), unfolding(crate::specs::Convert::converts, crate::specs::Convert::sound_record, crate::specs::Convert::converted_bytes))]
#[inline(always)]
fn convert(r: &[u8], from: u16, to: u16, out: &mut [u8]) -> Result<(), Unconvertible>
    ensures { (result ≡ answer (converts from to r.now (length out.old))) × (out.new ≡ pick (converts from to r.now (length out.old)) (converted_bytes to r.now) out.old) }
{
    if out.len() != drive::length_of(to) as usize {
        return Err(Unconvertible);
    }
    if !is_record(r, from) {
        return Err(Unconvertible);
    }
    let d = drive::decode(r);
    if !(drive::fields_ok(d) && drive::zero_tail(d) && !drive::is_i2o(d)) {
        return Err(Unconvertible);
    }
    words::put(out, 0, drive::length_of(to));
    words::put(out, 2, to);
    words::store(out, 4, &r[4..68]);
    out[68..].fill(0);
    Ok(())
}

// From kind 1 to kind 2.
#[tactic(auto, using(crate::proofs::ConvertLaws::up_converts, crate::proofs::ConvertLaws::up_converted), unfolding(crate::specs::Convert::up_answer, crate::specs::Convert::up_out))]
pub fn up(r: &[u8], out: &mut [u8]) -> Result<(), Unconvertible>
    ensures { (result ≡ up_answer r.now (length out.old)) × (out.new ≡ up_out r.now out.old) }
{
    convert(r, drive::DRIVE_KIND, drive::WIDE_KIND, out)
}

// From kind 2 to kind 1.
#[tactic(auto, using(crate::proofs::ConvertLaws::down_converts, crate::proofs::ConvertLaws::down_converted), unfolding(crate::specs::Convert::down_answer, crate::specs::Convert::down_out))]
pub fn down(r: &[u8], out: &mut [u8]) -> Result<(), Unconvertible>
    ensures { (result ≡ down_answer r.now (length out.old)) × (out.new ≡ down_out r.now out.old) }
{
    convert(r, drive::WIDE_KIND, drive::DRIVE_KIND, out)
}
