//! Records of a file from a tensor.

ghost use Rattle.std.specs.Prelude.{◌≡◌, ◌<◌, ◌++◌, length, slice_index, IfOk, OnOk};
ghost use Rattle.dt_files.specs.Written.{row_text, rows_text};
ghost use Rattle.dt_model.specs.Positions.{coords_at};
ghost use Rattle.dt_tensor.specs.Packed.{stored_of, IsPacked};

use dt_base::{Bytes, NoMemory};
use dt_tensor::Tensor;
use std::alloc::Global;

/// The bytes of a file with the stored entries of a tensor, in order of position. Each is a record: its coordinates and
/// then its number, in decimal, with commas between, and LF behind.
pub fn write_rows(alloc: Global, tensor: &Tensor) -> Result<Bytes, NoMemory>
    ensures { IfOk result (λ bytes. bytes ≡ rows_text tensor.now) }
{
    let order = tensor.shape().order;
    let mut text = Bytes::new(alloc);
    for pos in 0..tensor.stored() {
        write_row(&mut text, tensor, order, pos)?;
    }
    Ok(text)
}

/// Puts the record of a position of a tensor of this order at the end.
fn write_row(text: &mut Bytes, tensor: &Tensor, order: u8, pos: u32) -> Result<(), NoMemory>
    requires packed { IsPacked tensor.now }
    requires order { length tensor.now.extents ≡ order }
    requires within { pos < length tensor.now.coords }
    ensures { OnOk result (text.new ≡ text.old ++ row_text (coords_at (stored_of tensor.now) pos) (slice_index tensor.now.values pos)) }
{
    for level in 0..order {
        text.append_number(tensor.coord(pos, level))?;
        text.append(b",")?;
    }
    text.append_number(tensor.value(pos))?;
    text.append(b"\n")?;
    Ok(())
}
