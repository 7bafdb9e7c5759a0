// A block made from zeros.
ghost use Rattle.std.specs.Prelude.{◌≡◌, ◌≤◌, length};
ghost use Rattle.journal.specs.Block.{bit, block_of};
ghost use Rattle.journal.specs.Put.{head_put, words_put};

use crate::block::Title;
use crate::{sums, words};

// Bytes 0 to 11.
fn put_head(out: &mut [u8; 512], title: Title, index: u8, last: bool, used: u8)
    ensures { out.new ≡ head_put out.old title index (bit last) used }
{
    let key = title.key;
    words::put_four(out, 0, words::halves(key.code, key.year));
    words::put_four(out, 4, key.hand);
    words::put_four(
        out,
        8,
        words::four(index, u8::from(last), used, title.edition),
    );
}

// The entries, from byte 16 on.
fn put_entries(out: &mut [u8; 512], entries: &[u32])
    requires { length entries.now ≤ 120 }
    ensures { out.new ≡ words_put (length entries.now) out.old entries.now }
{
    // By place and not by `chunks_exact_mut`: a proof does not know the elements that such a borrow leaves.
    for (i, w) in entries.iter().enumerate() {
        words::put_four(out, 16 + 4 * i, *w);
    }
}

// A block made from zeros: its head, its entries, its check.
fn block_of(title: Title, index: u8, last: bool, entries: &[u32]) -> [u8; 512]
    requires { length entries.now ≤ 120 }
    ensures { result ≡ block_of title index (bit last) entries.now }
{
    let used = entries.len() as u8;
    let mut block = [0u8; 512];
    put_head(&mut block, title, index, last, used);
    put_entries(&mut block, entries);
    let check = sums::check_bytes(&block);
    block[510] = check.sum;
    block[511] = check.run;
    block
}

// The same, laid over the caller's 512 bytes.
pub fn fill_block(out: &mut [u8], title: Title, index: u8, last: bool, entries: &[u32])
    requires out_len { length out.old ≡ 512 }
    requires entries_len_bound { length entries.now ≤ 120 }
    ensures { out.new ≡ block_of title index (bit last) entries.now }
{
    let block = block_of(title, index, last, entries);
    commons::copying::copy(out, 0, &block, 0, 512);
}
