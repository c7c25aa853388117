// Identifiers: the raw form, and the form shifted into the field of an Align.
ghost use Rattle.std.specs.Prelude.{◌≡◌, ◌^◌};
ghost use Rattle.ids.specs.Ids.{is_format, id_bits, id_low, aligned, raw_of};

// Format 1 or 2.
#[tactic(auto, unfolding(crate::specs::Ids::is_format))]
pub fn is_format(format: u32) -> bool
    ensures { result ≡ is_format format }
{
    format == 1 || format == 2
}

// How many identifiers a format has.
#[tactic(auto, unfolding(crate::specs::Ids::id_bits))]
pub fn id_limit(format: u32) -> u32
    ensures { result ≡ 2 ^ id_bits format }
{
    if format == 1 { 1 << 11 } else { 1 << 29 }
}

// The lowest bit of the identifier's field.
#[tactic(auto, unfolding(crate::specs::Ids::id_low), using(crate::proofs::Columns::column))]
pub fn id_low(format: u32, align: u32) -> u32
    ensures { result ≡ id_low format align }
{
    match (format, align) {
        (1, 2) => 18,
        (1, 3) => 21,
        (1, _) => 0,
        (_, 3) => 3,
        _ => 0,
    }
}

// A raw identifier shown under an Align; none above its bits.
#[tactic(auto, unfolding(crate::specs::Ids::aligned), using(crate::proofs::Columns::id_in_word))]
pub fn align_id(align: u32, format: u32, raw: u32) -> Option<u32>
    ensures { result ≡ aligned align format raw }
{
    if 3 < align || !is_format(format) || id_limit(format) <= raw {
        return None;
    }
    Some(raw << id_low(format, align))
}

// The raw identifier of an aligned one; none with a bit outside its field.
#[tactic(auto, unfolding(crate::specs::Ids::raw_of), using(crate::proofs::Columns::id_in_word, crate::proofs::Bits::one_shl))]
pub fn raw_id(align: u32, format: u32, shown: u32) -> Option<u32>
    ensures { result ≡ raw_of align format shown }
{
    if 3 < align || !is_format(format) {
        return None;
    }
    let low = id_low(format, align);
    let raw = shown >> low;
    if shown % (1 << low) != 0 || id_limit(format) <= raw {
        return None;
    }
    Some(raw)
}
