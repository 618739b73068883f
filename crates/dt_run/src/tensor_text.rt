//! What is printed of a tensor.

ghost use Rattle.std.specs.Prelude.{◌≡◌, ◌+◌, ◌*◌, ◌/◌, ◌<◌, ◌++◌, codes, length, OnOk};
ghost use Rattle.dt_base.specs.Rows.{product};
ghost use Rattle.dt_model.specs.Shape.{dims, IsShape};
ghost use Rattle.dt_tensor.specs.Packed.{dense_tensor};
ghost use Rattle.dt_refusal.specs.Refusals.{line_end};
ghost use Rattle.dt_run.specs.TensorText.{cut_text, row_length as length_of_rows, row_text, shape_text, tensor_text};

use dt_base::{Bytes, Name, NoMemory};
use dt_model::Shape;

/// Puts what is printed of a tensor with dense levels at the end: a line with its name and its shape, and a line for each
/// row. The numbers stand in order of position.
pub fn put_tensor(
    out: &mut Bytes,
    name: &Name,
    shape: &Shape,
    values: &[u64],
) -> Result<(), NoMemory>
    requires shape { IsShape shape.now }
    requires full { length values.now ≡ product (dims shape.now) }
    ensures { OnOk result (out.new ≡ out.old ++ tensor_text name.now (dense_tensor (dims shape.now) values.now)) }
{
    put_head(out, name, shape.dims())?;
    put_rows(out, values, row_length(shape.dims()))
}

fn put_head(out: &mut Bytes, name: &Name, extents: &[u32]) -> Result<(), NoMemory>
    ensures { OnOk result (out.new ≡ out.old ++ (codes "tensor " ++ name.now ++ codes " " ++ shape_text extents.now ++ line_end)) }
{
    out.append(b"tensor ")?;
    out.append(name.as_slice())?;
    out.append(b" ")?;
    put_shape(out, extents)?;
    out.append(b"\n")
}

fn put_shape(out: &mut Bytes, extents: &[u32]) -> Result<(), NoMemory>
    ensures { OnOk result (out.new ≡ out.old ++ shape_text extents.now) }
{
    if extents.is_empty() {
        out.append(b"scalar")
    } else {
        out.append_joined(extents, b'x')
    }
}

/// How many numbers stand in a row: the last extent, and 1 for a scalar.
fn row_length(extents: &[u32]) -> usize
    ensures { result ≡ length_of_rows extents.now }
{
    extents.last().copied().unwrap_or(1) as usize
}

/// Puts a line for each `row` numbers.
fn put_rows(out: &mut Bytes, values: &[u64], row: usize) -> Result<(), NoMemory>
    requires { 0 < row }
    ensures { OnOk result (out.new ≡ out.old ++ cut_text (length values.now / row) row values.now) }
{
    for r in 0..values.len() / row {
        put_row(out, &values[r * row..r * row + row])?;
    }
    Ok(())
}

fn put_row(out: &mut Bytes, values: &[u64]) -> Result<(), NoMemory>
    ensures { OnOk result (out.new ≡ out.old ++ row_text values.now) }
{
    out.append_joined(values, b' ')?;
    out.append(b"\n")
}
