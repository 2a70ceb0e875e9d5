// Bytes laid into a sheet, and read from it.
ghost use Rattle.std.specs.Prelude.{◌≡◌, ◌+◌, ◌≤◌, ◌*◌, ◌/◌, ◌<◌, length, take, drop, MatchOption};
ghost use Rattle.sheets.specs.Bytes.{stored};

// Puts bytes in the place of those from `at` on.
#[tactic(auto, using(crate::proofs::Stores::stored_mid))]
pub(crate) fn store(sheet: &mut [u8], at: usize, bytes: &[u8])
    requires { at + length bytes.now ≤ length sheet.old }
    ensures { sheet.new ≡ stored sheet.old at bytes.now }
{
    sheet[at..at + bytes.len()].copy_from_slice(bytes);
}

// The N bytes from `at` on.
pub(crate) fn read<const N: usize>(sheet: &[u8], at: usize) -> [u8; N]
    requires { at + N ≤ length sheet.now }
    ensures { result ≡ take N (drop at sheet.now) }
{
    let mut bytes = [0; N];
    bytes.copy_from_slice(&sheet[at..at + N]);
    bytes
}

// The N bytes of number i, of bytes that are cut into such pieces.
#[tactic(auto, using(crate::proofs::Chunks::chunk_at))]
pub(crate) fn piece<const N: usize>(bytes: &[u8], i: usize) -> Option<&[u8; N]>
    requires { 0 < N }
    ensures { MatchOption result (length bytes.now / N ≤ i) (λ p. (i < length bytes.now / N) × (p.now ≡ take N (drop (N * i) bytes.now))) }
{
    bytes.as_chunks().0.get(i)
}
