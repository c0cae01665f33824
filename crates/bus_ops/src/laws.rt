//! Laws on the bytes of operations, for every operation and every list of bytes. Their bodies are empty.
ghost use Rattle.std.specs.Prelude.{◌≡◌, ◌<◌, ◌↔◌, ◌∷◌, [], ◌++◌, List, ℕ, true, length, drop};
ghost use Rattle.std.specs.List.{AllByRecursion};
ghost use Rattle.operation_specs.specs.Operation.{Operation, IsOperation};
ghost use Rattle.operation_specs.specs.Spelling.{spell};
ghost use Rattle.operation_specs.specs.Reading as reading;
ghost use Rattle.bus_ops.specs.ItemsIn.{items_in};

/// An operation that is written is read back, whatever follows it, and what follows is read for itself.
pub fn written_is_read()
    ensures { (op : Operation) (rest : List ℕ) (items : List reading.Item) → IsOperation op
        → reading.IsReading (spell op ++ rest) items
        ↔ ((others : List reading.Item) × (items ≡ reading.Op op ∷ others) × reading.IsReading rest others) }
{}

/// No bytes are read as an operation but those that begin with its spelling.
pub fn read_is_written()
    ensures { (bytes : List ℕ) (op : Operation) (items : List reading.Item)
        → reading.IsReading bytes (reading.Op op ∷ items)
        → bytes ≡ spell op ++ drop (length (spell op)) bytes }
{}

/// No two operations have one spelling.
pub fn spellings_differ()
    ensures { (op other : Operation) → IsOperation op → IsOperation other
        → spell op ≡ spell other → op ≡ other }
{}

/// Bytes have one reading.
pub fn one_reading()
    ensures { (bytes : List ℕ) (items others : List reading.Item)
        → reading.IsReading bytes items → reading.IsReading bytes others → items ≡ others }
{}

/// Bytes that hold no whole operation are one bad item.
pub fn cut_is_bad()
    ensures { (bytes : List ℕ) → reading.is_cut bytes ≡ true → 0 < length bytes
        → reading.IsReading bytes (reading.Bad bytes ∷ []) }
{}

/// What is read are operations that can be written, and bad items of at least one byte.
pub fn read_is_whole()
    ensures { (bytes : List ℕ) (items : List reading.Item)
        → reading.IsReading bytes items → AllByRecursion reading.IsWhole items }
{}

/// Each list of bytes has a reading.
pub fn bytes_have_a_reading()
    ensures { (bytes : List ℕ) → AllByRecursion (λ b. b < 256) bytes
        → reading.IsReading bytes (items_in bytes) }
{}
