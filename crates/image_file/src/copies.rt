// The file's words and starts, copied into lent buffers.
// Requires a file that `checks::judge` passed; called by `read_file` alone.
ghost use Rattle.std.specs.Prelude.{◌≡◌, ◌<◌, ◌≤◌, ◌*◌, ◌+◌, ◌^◌, length};
ghost use Rattle.std.proofs.lemmas.List.Edits.{sets};
ghost use Rattle.image_file.specs.Reading.{words_from, key_at, keys_from};

use words::bytes::word_at;

// n words from byte 56 on.
pub fn copy_words(file: &[u8], n: usize, out: &mut [u32])
    requires { n ≤ length out.old }
    ensures { out.new ≡ sets out.old 0 (words_from file.now 56 n) }
{
    for i in 0..n {
        out[i] = word_at(file, 56 + i * 4);
    }
}

// A place as a key: its section's index times 2^32 plus its address.
fn key_at(file: &[u8], at: usize) -> u64
    requires { at + 4 < 2 ^ 64 }
    ensures { result ≡ key_at file.now at }
{
    word_at(file, at) as u64 * 4294967296 + word_at(file, at + 4) as u64
}

// n places from byte `from` on, as keys.
pub fn copy_starts(file: &[u8], from: usize, n: usize, out: &mut [u64])
    requires { (n ≤ length out.old) × (from < 2 ^ 40) }
    ensures { out.new ≡ sets out.old 0 (keys_from file.now from n) }
{
    for i in 0..n {
        out[i] = key_at(file, from + i * 8);
    }
}
