// The archive for C programs: the calls that include/edd_desk.h declares, under their names. The calls themselves are
// functions of `exports`; each here is one call of its like there, and promises the same words.
// Stays: each call stands twice, here and in `exports`, because a static library is none that another crate can rest
// on.
#![tactic(auto)]

ghost use Rattle.std.specs.Prelude.{◌≡◌, [], ◌∷◌};
ghost use Rattle.reader.specs.Reader.{reader_size};
ghost use Rattle.image.specs.Image.{desk_size};
ghost use Rattle.exports.specs.Exports.{version, effect, open_call, write_call, post_call, turn_call, collect_call, withdraw_call, place_call, reader_open_call, reader_feed_call, reader_end_call, reader_write_call, window_call, block_call, address_call, up_call, down_call};

#[unsafe(no_mangle)]
pub extern "C" fn edd_version() -> u32
    ensures { result ≡ version }
{
    exports::edd_version()
}

#[unsafe(no_mangle)]
pub extern "C" fn edd_desk_size() -> u64
    ensures { result ≡ desk_size }
{
    exports::edd_desk_size()
}

#[unsafe(no_mangle)]
pub extern "C" fn edd_open(
    desk: &mut [u8],
    table: &[u8],
    arena: u64,
    store: u64,
    place: &mut u64,
) -> u32
    ensures { effect (result ∷ place.new ∷ []) (desk.new ∷ []) ≡ open_call desk.old table.now arena store place.old }
{
    exports::edd_open(desk, table, arena, store, place)
}

#[unsafe(no_mangle)]
pub extern "C" fn edd_write(desk: &[u8], out: &mut [u8], written: &mut u64) -> u32
    ensures { effect (result ∷ written.new ∷ []) (out.new ∷ []) ≡ write_call desk.now out.old written.old }
{
    exports::edd_write(desk, out, written)
}

#[unsafe(no_mangle)]
pub extern "C" fn edd_post(
    desk: &mut [u8],
    arena: &mut [u8],
    store: &[u8],
    guest: u64,
    ax: &mut u16,
    bx: &mut u16,
    cx: &mut u16,
    dx: &mut u16,
    ds: u16,
    si: u16,
    es: u16,
    carry: &mut u16,
) -> u32
    ensures { effect (result ∷ ax.new ∷ bx.new ∷ cx.new ∷ dx.new ∷ carry.new ∷ []) (desk.new ∷ arena.new ∷ []) ≡ post_call desk.old arena.old store.now guest ax.old bx.old cx.old dx.old ds si es carry.old }
{
    exports::edd_post(desk, arena, store, guest, ax, bx, cx, dx, ds, si, es, carry)
}

#[unsafe(no_mangle)]
pub extern "C" fn edd_turn(
    desk: &mut [u8],
    arena: &mut [u8],
    store: &mut [u8],
    guest: &mut u64,
    moved: &mut u64,
) -> u32
    ensures { effect (result ∷ guest.new ∷ moved.new ∷ []) (desk.new ∷ arena.new ∷ store.new ∷ []) ≡ turn_call desk.old arena.old store.old guest.old moved.old }
{
    exports::edd_turn(desk, arena, store, guest, moved)
}

#[unsafe(no_mangle)]
pub extern "C" fn edd_collect(
    desk: &mut [u8],
    guest: u64,
    ax: &mut u16,
    bx: &mut u16,
    cx: &mut u16,
    dx: &mut u16,
    ds: &mut u16,
    si: &mut u16,
    es: &mut u16,
    carry: &mut u16,
) -> u32
    ensures { effect (result ∷ ax.new ∷ bx.new ∷ cx.new ∷ dx.new ∷ ds.new ∷ si.new ∷ es.new ∷ carry.new ∷ []) (desk.new ∷ []) ≡ collect_call desk.old guest (ax.old ∷ bx.old ∷ cx.old ∷ dx.old ∷ ds.old ∷ si.old ∷ es.old ∷ carry.old ∷ []) }
{
    exports::edd_collect(desk, guest, ax, bx, cx, dx, ds, si, es, carry)
}

#[unsafe(no_mangle)]
pub extern "C" fn edd_withdraw(
    desk: &mut [u8],
    arena: &mut [u8],
    store: &[u8],
    guest: u64,
    ax: &mut u16,
    bx: &mut u16,
    cx: &mut u16,
    dx: &mut u16,
    ds: &mut u16,
    si: &mut u16,
    es: &mut u16,
    carry: &mut u16,
) -> u32
    ensures { effect (result ∷ ax.new ∷ bx.new ∷ cx.new ∷ dx.new ∷ ds.new ∷ si.new ∷ es.new ∷ carry.new ∷ []) (desk.new ∷ arena.new ∷ []) ≡ withdraw_call desk.old arena.old store.now guest (ax.old ∷ bx.old ∷ cx.old ∷ dx.old ∷ ds.old ∷ si.old ∷ es.old ∷ carry.old ∷ []) }
{
    exports::edd_withdraw(desk, arena, store, guest, ax, bx, cx, dx, ds, si, es, carry)
}

#[unsafe(no_mangle)]
pub extern "C" fn edd_place(
    desk: &mut [u8],
    arena: &mut [u8],
    store: &[u8],
    guest: u64,
    address: u64,
) -> u32
    ensures { effect (result ∷ []) (desk.new ∷ arena.new ∷ []) ≡ place_call desk.old arena.old store.now guest address }
{
    exports::edd_place(desk, arena, store, guest, address)
}

#[unsafe(no_mangle)]
pub extern "C" fn edd_reader_size() -> u64
    ensures { result ≡ reader_size }
{
    exports::edd_reader_size()
}

#[unsafe(no_mangle)]
pub extern "C" fn edd_reader_open(reader: &mut [u8], store: u64) -> u32
    ensures { effect (result ∷ []) (reader.new ∷ []) ≡ reader_open_call reader.old store }
{
    exports::edd_reader_open(reader, store)
}

#[unsafe(no_mangle)]
pub extern "C" fn edd_reader_feed(reader: &mut [u8], bytes: &[u8], place: &mut u64) -> u32
    ensures { effect (result ∷ place.new ∷ []) (reader.new ∷ []) ≡ reader_feed_call reader.old bytes.now place.old }
{
    exports::edd_reader_feed(reader, bytes, place)
}

#[unsafe(no_mangle)]
pub extern "C" fn edd_reader_end(reader: &mut [u8], place: &mut u64) -> u32
    ensures { effect (result ∷ place.new ∷ []) (reader.new ∷ []) ≡ reader_end_call reader.old place.old }
{
    exports::edd_reader_end(reader, place)
}

#[unsafe(no_mangle)]
pub extern "C" fn edd_reader_write(reader: &[u8], out: &mut [u8], written: &mut u64) -> u32
    ensures { effect (result ∷ written.new ∷ []) (out.new ∷ []) ≡ reader_write_call reader.now out.old written.old }
{
    exports::edd_reader_write(reader, out, written)
}

#[unsafe(no_mangle)]
pub extern "C" fn edd_window(arena: u64, guest: u64, start: &mut u64, length: &mut u64) -> u32
    ensures { effect (result ∷ start.new ∷ length.new ∷ []) [] ≡ window_call arena guest }
{
    exports::edd_window(arena, guest, start, length)
}

#[unsafe(no_mangle)]
pub extern "C" fn edd_block(
    cylinders: u32,
    heads: u32,
    sectors: u32,
    cylinder: u32,
    head: u32,
    sector: u32,
    block: &mut u32,
) -> u32
    ensures { effect (result ∷ block.new ∷ []) [] ≡ block_call (record { c = cylinders; h = heads; s = sectors }) (record { cylinder = cylinder; head = head; sector = sector }) block.old }
{
    exports::edd_block(cylinders, heads, sectors, cylinder, head, sector, block)
}

#[unsafe(no_mangle)]
pub extern "C" fn edd_address(
    cylinders: u32,
    heads: u32,
    sectors: u32,
    block: u64,
    cylinder: &mut u32,
    head: &mut u32,
    sector: &mut u32,
) -> u32
    ensures { effect (result ∷ cylinder.new ∷ head.new ∷ sector.new ∷ []) [] ≡ address_call (record { c = cylinders; h = heads; s = sectors }) block cylinder.old head.old sector.old }
{
    exports::edd_address(cylinders, heads, sectors, block, cylinder, head, sector)
}

#[unsafe(no_mangle)]
pub extern "C" fn edd_convert_up(bytes: &[u8], out: &mut [u8]) -> u32
    ensures { effect (result ∷ []) (out.new ∷ []) ≡ up_call bytes.now out.old }
{
    exports::edd_convert_up(bytes, out)
}

#[unsafe(no_mangle)]
pub extern "C" fn edd_convert_down(bytes: &[u8], out: &mut [u8]) -> u32
    ensures { effect (result ∷ []) (out.new ∷ []) ≡ down_call bytes.now out.old }
{
    exports::edd_convert_down(bytes, out)
}
