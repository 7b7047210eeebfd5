// Sizes of fields, the packet count, and packets as numbers (document 01, "Packets").
#![tactic(auto)]

ghost use Rattle.std.specs.Prelude.{◌≡◌, ◌==◌, ◌<◌, length, position};
ghost use Rattle.packet.specs.Refusals.{refusal, refused_at};
ghost use Rattle.packet.specs.Sizes.{fields_stage, packet_count, LegalSizes};
ghost use Rattle.packet.specs.Packets.{stride};

// A numbered cause of document 01: its number, the side (0 none, 1 left, 2 right) and the place.
#[derive(Clone, Copy, PartialEq, Eq)]
pub struct Refusal {
    pub number: u8,
    pub side: u8,
    pub place: u64,
}

// What one stage of tests says.
pub type Tested = Result<(), Refusal>;

// Inner: a cause that names no side.
pub fn unsided(number: u8, place: usize) -> Refusal
    ensures { result ≡ refusal number 0 place }
{
    Refusal {
        number,
        side: 0,
        place: place as u64,
    }
}

// Inner: a cause with the lowest place at which it holds, if it holds.
pub fn refused_at(number: u8, side: u8, place: Option<usize>) -> Tested
    ensures { result ≡ refused_at number side place }
{
    match place {
        Some(place) => Err(Refusal {
            number,
            side,
            place: place as u64,
        }),
        None => Ok(()),
    }
}

// The lowest field of size 0.
fn lowest_zero(sizes: &[u16]) -> Option<usize>
    ensures { result ≡ position (λ size. size == 0) sizes.now }
{
    sizes.iter().position(|size| *size == 0)
}

// Inner: stage "fields", causes 1 and 2.
pub fn fields_stage(sizes: &[u16]) -> Tested
    ensures { result ≡ fields_stage sizes.now }
{
    let k = sizes.len();
    if k == 0 || 8 < k {
        return Err(unsided(1, 0));
    }
    refused_at(2, 0, lowest_zero(sizes))
}

// Inner: stage "product", cause 3, with the packet count where it passes.
pub fn packet_count(sizes: &[u16]) -> Result<u16, Refusal>
    ensures { result ≡ packet_count sizes.now }
{
    let mut product: u32 = 1;
    for (i, size) in sizes.iter().enumerate() {
        product *= u32::from(*size);
        if 1024 < product {
            return Err(unsided(3, i));
        }
    }
    Ok(product as u16)
}

// Inner: how far apart two packets are that differ by one in the field alone.
pub fn stride_of(sizes: &[u16], field: usize) -> u16
    requires legal_sizes { LegalSizes sizes.now }
    requires field_in_bounds { field < length sizes.now }
    ensures { result ≡ stride sizes.now field }
{
    let mut stride: u16 = 1;
    for i in (field + 1..sizes.len()).rev() {
        stride *= sizes[i];
    }
    stride
}
