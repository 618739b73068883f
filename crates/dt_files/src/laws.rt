//! A law of tensor files.

ghost use Rattle.std.specs.Prelude.{◌≡◌, ◌<◌, ◌^◌, Ok, All, length};
ghost use Rattle.dt_files.specs.Rows.{rows_read};
ghost use Rattle.dt_files.specs.Written.{rows_text, stored_entries};
ghost use Rattle.dt_tensor.specs.Packed.{Packed, IsPacked};

/// Reading what was written gives the stored entries in order.
pub fn written_rows_are_read_back()
    ensures { (t : Packed) → IsPacked t → All (λ v. v < 2 ^ 64) t.values → rows_read (length t.extents) (rows_text t) ≡ Ok (stored_entries t) }
{}
