ghost use Rattle.std.specs.Prelude.{◌≡◌, [], ◌∷◌, ◌++◌, OnOk};

use costs::Text;
use std::alloc::{AllocError, Global};

// Adds a line: what stands before the text, the text and a newline.
pub fn push_line<T: Text>(
    out: &mut Vec<u8>,
    before: &[u8],
    shown: &T,
    heap: Global,
) -> Result<(), AllocError>
    ensures { OnOk result (out.new.items ≡ out.old.items ++ (before.now ++ (T.Text.text shown.now ++ (10 ∷ [])))) }
{
    let len = shown.text_len(usize::MAX).ok_or(AllocError)?;
    let mut text = vec![in heap; 0; len]?;
    shown.write_text(text.as_mut_slice());
    out.extend_from_slice(before)?;
    out.extend_from_slice(text.as_slice())?;
    out.push(b'\n')?;
    Ok(())
}
