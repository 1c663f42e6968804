//! Laws of slots. Calling one does nothing at run time; it gives the caller's proof the law.

ghost use Rattle.ttx_packet.specs.Laws.{KindIsKept, EachSlotMayBeReceivedAsSent, ClocksAreFree, InfosAreFree};
ghost use Rattle.ttx_packet.specs.Laws.{EmptySlotsAreEmpty, AddressIsReadBack, RowsAreNumbered};

/// One wrong bit in each byte leaves the kind, the magazine and the packet number of a clean slot unchanged, with one
/// exception: row 2 of magazine 1 may be received as 42 zero bytes. Then no character of it is received.
pub fn kind_is_kept()
    ensures { KindIsKept }
{
    ttx_code::laws::words_have_numbers();
    ttx_code::laws::words_are_read_under_one_wrong_bit();
}

/// A slot may be received as it was sent.
pub fn each_slot_may_be_received_as_sent()
    ensures { EachSlotMayBeReceivedAsSent }
{
    ttx_code::laws::each_byte_is_near_itself();
}

/// A page header may be received with any bytes in its clock (34 to 41), and packet 8/30 with any bytes after its address.
pub fn free_bytes_are_anything()
    ensures clocks { ClocksAreFree }
    ensures infos { InfosAreFree }
{
    ttx_code::laws::each_byte_is_near_itself();
}

/// 42 zero bytes have the kind of an empty slot, and no other bytes have it.
pub fn empty_slots_are_empty()
    ensures { EmptySlotsAreEmpty }
{}

/// Both bytes of an address are code words, and a packet that begins with them has this magazine and packet number.
pub fn address_is_read_back()
    ensures { AddressIsReadBack }
{
    ttx_code::laws::words_are_read();
    ttx_code::laws::words_are_words();
}

/// The packet number of a row is 1 to 24.
pub fn rows_are_numbered()
    ensures { RowsAreNumbered }
{}
