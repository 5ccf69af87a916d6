// A text handed over in a lent buffer: refusal 30.
ghost use Rattle.std.specs.Prelude.{◌≡◌, ℕ, ◌^◌, ◌<◌, ◌≤◌, List, length};
ghost use Rattle.answers.specs.Answers.{told, counted, Passes};
ghost use Rattle.text.specs.Text.{Written};
ghost use Rattle.listings.specs.Fields.{Field, listing};
ghost use Rattle.listings.specs.Handing.{handed_answer, handed};
ghost use Rattle.listings.specs.Listings.{listing_answer, listing_after};

use answers::answers::Sheet;
use text::text::put_text;

// 30: whether a buffer is shorter than the text; else the text stands at its start, and its length is the answer.
pub fn hand_over(text: &[u8], buffer: &mut [u8]) -> Result<usize, Sheet>
    ensures verdict { counted result ≡ handed_answer (length text.now) (length buffer.old) }
    ensures written { buffer.new ≡ handed text.now buffer.old }
{
    if buffer.len() < text.len() {
        return Err(Sheet::Buffer(30, 0));
    }
    Ok(put_text(text, buffer, 0))
}

// The text of a sheet, which `write` puts over N bytes, and its length; what the sheet's own checks refuse is refused by
// these, and a buffer that is shorter than the text by 30.
pub fn listed<const N: usize, W: FnOnce(&mut [u8]) -> usize>(
    checked: Result<(), Sheet>,
    write: W,
    buffer: &mut [u8],
) -> Result<usize, Sheet>
    requires small { N < 2 ^ 32 }
    requires takes { Passes (told checked) → (bytes : _) → length bytes.now ≡ N → W.pre write bytes }
    requires inside { Passes (told checked) → (bytes : _) (end : ℕ) (after : _) → length bytes.now ≡ N
        → W.post write bytes end after → end ≤ N }
    ensures { (fields : List Field) → (Passes (told checked) → (bytes : _) (end : ℕ) (after : _)
        → length bytes.now ≡ N → W.post write bytes end after
        → Written bytes.now 0 (listing fields) after.now end)
        → (counted result ≡ listing_answer (told checked) fields (length buffer.old))
        × (buffer.new ≡ listing_after (told checked) fields buffer.old) }
{
    checked?;
    let mut text = [0u8; N];
    let end = write(&mut text);
    hand_over(&text[..end], buffer)
}
