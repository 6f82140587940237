// The C face of the store of a day's spots.
ghost use Rattle.std.specs.Prelude.{◌≡◌};
ghost use Rattle.store.specs.Store.{Clear, Add, Strike, CloseUp};
ghost use Rattle.face.specs.Face.{left};
ghost use Rattle.face_store.specs.Face.{store_face};

// Frees every slot of the store. Answers 0, with 0 in value, or the refusal's number, with the value that goes with it in value and the store as it was.
#[unsafe(no_mangle)]
pub extern "C" fn uramsheg_store_clear(store: &mut [u8], value: &mut u64) -> u32
    ensures { left result value.new store.new ≡ store_face Clear store.old }
{
    alp_c::uramsheg_store_clear(store, value)
}

// Puts a record into the lowest free slot. Answers 0, with the slot in value, or the refusal's number, with the value that goes with it in value and the store
// as it was.
#[unsafe(no_mangle)]
pub extern "C" fn uramsheg_store_add(
    store: &mut [u8],
    rows: usize,
    cols: usize,
    spot: &[u8],
    value: &mut u64,
) -> u32
    ensures { left result value.new store.new ≡ store_face (Add rows cols spot.now) store.old }
{
    alp_c::uramsheg_store_add(store, rows, cols, spot, value)
}

// Frees a slot. Answers 0, with 0 in value, or the refusal's number, with the value that goes with it in value and the store as it was.
#[unsafe(no_mangle)]
pub extern "C" fn uramsheg_store_strike(
    store: &mut [u8],
    rows: usize,
    cols: usize,
    slot: usize,
    value: &mut u64,
) -> u32
    ensures { left result value.new store.new ≡ store_face (Strike rows cols slot) store.old }
{
    alp_c::uramsheg_store_strike(store, rows, cols, slot, value)
}

// Moves the live records down in their order and frees the rest. Answers 0, with the live number in value, or the refusal's number, with the value that goes
// with it in value and the store as it was.
#[unsafe(no_mangle)]
pub extern "C" fn uramsheg_store_close_up(
    store: &mut [u8],
    rows: usize,
    cols: usize,
    value: &mut u64,
) -> u32
    ensures { left result value.new store.new ≡ store_face (CloseUp rows cols) store.old }
{
    alp_c::uramsheg_store_close_up(store, rows, cols, value)
}
