//! Laws of a snapshot's JSON.

ghost use Rattle.std.specs.Prelude.{◌≡◌, List, ℕ};
ghost use Rattle.serde_json.specs.Data.{Data};
ghost use Rattle.snapshot.specs.declared.snapshot.Snapshot.{Snapshot};
ghost use Rattle.snapshot_json.specs.Reading.{IsSnapshotText};
ghost use Rattle.snapshot_json.specs.SnapshotData.{HasWords, IsSnapshotData, snapshot_data};

/// What is written of a snapshot is its data.
pub fn a_snapshots_json_is_its_data()
    ensures { (s : Snapshot) → IsSnapshotData (snapshot_data s) s }
{}

/// The JSON leaves nothing of a snapshot out: a value is the data of one snapshot at most.
pub fn a_value_is_the_data_of_one_snapshot()
    ensures { (d : Data) (s t : Snapshot) → HasWords s → HasWords t → IsSnapshotData d s
        → IsSnapshotData d t → s ≡ t }
{}

/// Bytes are the text of one snapshot at most.
pub fn bytes_are_the_text_of_one_snapshot()
    ensures { (bytes : List ℕ) (s t : Snapshot) → HasWords s → HasWords t → IsSnapshotText bytes s
        → IsSnapshotText bytes t → s ≡ t }
{}
