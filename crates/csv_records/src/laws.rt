//! Laws of the definitions. The functions do nothing; their contracts say the laws.
ghost use Rattle.std.specs.Prelude.{◌≡◌, ◌<◌, ◌==◌, ℕ, List, false, length};
ghost use Rattle.std.specs.List.{list_any, slice_split};
ghost use Rattle.csv_records.specs.Table.{is_special, ends_quoted};
ghost use Rattle.csv_records.specs.Files.{records_within};
ghost use Rattle.csv_records.specs.Ahead.{records_of, text_ahead, start_within};
ghost use Rattle.csv_records.specs.Fields.{fields};

/// What is ahead of a new reader is the whole file.
pub fn reader_reads_file()
    ensures { (limit d : ℕ) (bytes : List ℕ) → records_of d (text_ahead (start_within limit) bytes) ≡ records_within limit d bytes }
{}

/// A record without a double quote, CR or LF doesn't end inside of quotes, and its fields are its parts between the
/// delimiters.
pub fn plain_records_are_split()
    ensures closed { (d : ℕ) (bytes : List ℕ) → list_any is_special bytes ≡ false → ends_quoted d bytes ≡ false }
    ensures fields { (d : ℕ) (bytes : List ℕ) → 0 < length bytes → list_any is_special bytes ≡ false → fields d bytes ≡ slice_split (λ byte. byte == d) bytes }
{}
