//! The table of the host interface. It is this host's own: modules that are built for the public network import other names.

use crate::import::HostImport;
use crate::kinds::{ArgKind, ResultKind};

/// A row of the host interface: an import by its module and name, with the kinds of its arguments and its result.
///
/// `Text` and `Kinds` are parameters because definitions speak of the same rows with plain lists.
#[derive(Clone, Copy)]
pub struct HostRow<Text, Kinds> {
    pub import: HostImport,
    /// The import's module, which is one letter.
    pub letter: Text,
    pub name: Text,
    /// The import has as many parameters, each of type `i64`.
    pub arguments: Kinds,
    /// The import has one result, of type `i64`.
    pub result: ResultKind,
}

/// A row of the table.
pub type TableRow = HostRow<&'static str, &'static [ArgKind]>;

macro_rules! row {
    ($letter:literal, $name:literal, $import:ident($($argument:ident),*) -> $result:ident) => {
        HostRow {
            import: HostImport::$import,
            letter: $letter,
            name: $name,
            arguments: &[$(ArgKind::$argument),*],
            result: ResultKind::$result,
        }
    };
}

/// The whole host interface.
pub const HOST_ROWS: [TableRow; 94] = [
    // Context.
    row!("x", "obj_cmp", ObjCmp(Value, Value) -> Signed),
    row!("x", "contract_event", ContractEvent(Vec, Value) -> Void),
    row!("x", "get_ledger_version", GetLedgerVersion() -> U32),
    row!("x", "get_ledger_sequence", GetLedgerSequence() -> U32),
    row!("x", "get_ledger_timestamp", GetLedgerTimestamp() -> U64),
    row!("x", "get_ledger_network_id", GetLedgerNetworkId() -> Bytes),
    row!("x", "get_current_contract_address", GetCurrentContractAddress() -> Address),
    row!("x", "get_max_live_until_ledger", GetMaxLiveUntilLedger() -> U32),
    row!("x", "fail_with_error", FailWithError(Error) -> Never),
    // Integers.
    row!("i", "obj_from_u64", ObjFromU64(Unsigned) -> U64),
    row!("i", "obj_to_u64", ObjToU64(U64) -> Unsigned),
    row!("i", "obj_from_i64", ObjFromI64(Signed) -> I64),
    row!("i", "obj_to_i64", ObjToI64(I64) -> Signed),
    row!("i", "obj_from_u128_pieces", ObjFromU128Pieces(Unsigned, Unsigned) -> U128),
    row!("i", "obj_to_u128_hi64", ObjToU128Hi64(U128) -> Unsigned),
    row!("i", "obj_to_u128_lo64", ObjToU128Lo64(U128) -> Unsigned),
    row!("i", "obj_from_i128_pieces", ObjFromI128Pieces(Signed, Unsigned) -> I128),
    row!("i", "obj_to_i128_hi64", ObjToI128Hi64(I128) -> Signed),
    row!("i", "obj_to_i128_lo64", ObjToI128Lo64(I128) -> Unsigned),
    row!("i", "timepoint_obj_from_u64", TimepointObjFromU64(Unsigned) -> Timepoint),
    row!("i", "timepoint_obj_to_u64", TimepointObjToU64(Timepoint) -> Unsigned),
    row!("i", "duration_obj_from_u64", DurationObjFromU64(Unsigned) -> Duration),
    row!("i", "duration_obj_to_u64", DurationObjToU64(Duration) -> Unsigned),
    // Maps.
    row!("m", "map_new", MapNew() -> Map),
    row!("m", "map_put", MapPut(Map, Value, Value) -> Map),
    row!("m", "map_get", MapGet(Map, Value) -> Value),
    row!("m", "map_del", MapDel(Map, Value) -> Map),
    row!("m", "map_len", MapLen(Map) -> U32),
    row!("m", "map_has", MapHas(Map, Value) -> Bool),
    row!("m", "map_key_by_pos", MapKeyByPos(Map, U32) -> Value),
    row!("m", "map_val_by_pos", MapValByPos(Map, U32) -> Value),
    row!("m", "map_keys", MapKeys(Map) -> Vec),
    row!("m", "map_values", MapValues(Map) -> Vec),
    // Vectors.
    row!("v", "vec_new", VecNew() -> Vec),
    row!("v", "vec_put", VecPut(Vec, U32, Value) -> Vec),
    row!("v", "vec_get", VecGet(Vec, U32) -> Value),
    row!("v", "vec_del", VecDel(Vec, U32) -> Vec),
    row!("v", "vec_len", VecLen(Vec) -> U32),
    row!("v", "vec_push_front", VecPushFront(Vec, Value) -> Vec),
    row!("v", "vec_pop_front", VecPopFront(Vec) -> Vec),
    row!("v", "vec_push_back", VecPushBack(Vec, Value) -> Vec),
    row!("v", "vec_pop_back", VecPopBack(Vec) -> Vec),
    row!("v", "vec_front", VecFront(Vec) -> Value),
    row!("v", "vec_back", VecBack(Vec) -> Value),
    row!("v", "vec_insert", VecInsert(Vec, U32, Value) -> Vec),
    row!("v", "vec_append", VecAppend(Vec, Vec) -> Vec),
    row!("v", "vec_slice", VecSlice(Vec, U32, U32) -> Vec),
    row!("v", "vec_first_index_of", VecFirstIndexOf(Vec, Value) -> OptionalU32),
    row!("v", "vec_last_index_of", VecLastIndexOf(Vec, Value) -> OptionalU32),
    row!("v", "vec_new_from_linear_memory", VecNewFromLinearMemory(U32, U32) -> Vec),
    row!("v", "vec_unpack_to_linear_memory", VecUnpackToLinearMemory(Vec, U32, U32) -> Void),
    // Bytes, strings and symbols.
    row!("b", "serialize_to_bytes", SerializeToBytes(Value) -> Bytes),
    row!("b", "deserialize_from_bytes", DeserializeFromBytes(Bytes) -> Value),
    row!("b", "bytes_new", BytesNew() -> Bytes),
    row!("b", "bytes_put", BytesPut(Bytes, U32, U32) -> Bytes),
    row!("b", "bytes_get", BytesGet(Bytes, U32) -> U32),
    row!("b", "bytes_del", BytesDel(Bytes, U32) -> Bytes),
    row!("b", "bytes_len", BytesLen(Bytes) -> U32),
    row!("b", "bytes_push", BytesPush(Bytes, U32) -> Bytes),
    row!("b", "bytes_pop", BytesPop(Bytes) -> Bytes),
    row!("b", "bytes_front", BytesFront(Bytes) -> U32),
    row!("b", "bytes_back", BytesBack(Bytes) -> U32),
    row!("b", "bytes_insert", BytesInsert(Bytes, U32, U32) -> Bytes),
    row!("b", "bytes_append", BytesAppend(Bytes, Bytes) -> Bytes),
    row!("b", "bytes_slice", BytesSlice(Bytes, U32, U32) -> Bytes),
    row!("b", "bytes_copy_to_linear_memory", BytesCopyToLinearMemory(Bytes, U32, U32, U32) -> Void),
    row!("b", "string_copy_to_linear_memory", StringCopyToLinearMemory(String, U32, U32, U32) -> Void),
    row!("b", "symbol_copy_to_linear_memory", SymbolCopyToLinearMemory(Symbol, U32, U32, U32) -> Void),
    row!("b", "bytes_copy_from_linear_memory", BytesCopyFromLinearMemory(Bytes, U32, U32, U32) -> Bytes),
    row!("b", "bytes_new_from_linear_memory", BytesNewFromLinearMemory(U32, U32) -> Bytes),
    row!("b", "string_new_from_linear_memory", StringNewFromLinearMemory(U32, U32) -> String),
    row!("b", "symbol_new_from_linear_memory", SymbolNewFromLinearMemory(U32, U32) -> Symbol),
    row!("b", "string_len", StringLen(String) -> U32),
    row!("b", "symbol_len", SymbolLen(Symbol) -> U32),
    row!("b", "string_to_bytes", StringToBytes(String) -> Bytes),
    row!("b", "bytes_to_string", BytesToString(Bytes) -> String),
    // Hashes.
    row!("c", "compute_hash_sha256", ComputeHashSha256(Bytes) -> Bytes),
    // The ledger.
    row!("l", "put_contract_data", PutContractData(Value, Value, Unsigned) -> Void),
    row!("l", "has_contract_data", HasContractData(Value, Unsigned) -> Bool),
    row!("l", "get_contract_data", GetContractData(Value, Unsigned) -> Value),
    row!("l", "del_contract_data", DelContractData(Value, Unsigned) -> Void),
    row!("l", "extend_contract_data_ttl", ExtendContractDataTtl(Value, Unsigned, U32, U32) -> Void),
    row!("l", "extend_current_contract_instance_and_code_ttl", ExtendCurrentContractInstanceAndCodeTtl(U32, U32) -> Void),
    row!("l", "upload_wasm", UploadWasm(Bytes) -> Bytes),
    row!("l", "create_contract", CreateContract(Address, Bytes, Bytes) -> Address),
    row!("l", "create_contract_with_constructor", CreateContractWithConstructor(Address, Bytes, Bytes, Vec) -> Address),
    row!("l", "update_current_contract_wasm", UpdateCurrentContractWasm(Bytes) -> Void),
    row!("l", "get_contract_id", GetContractId(Address, Bytes) -> Address),
    // Calls.
    row!("d", "call", Call(Address, Symbol, Vec) -> Value),
    row!("d", "try_call", TryCall(Address, Symbol, Vec) -> Value),
    // Authorisation, and parts of muxed addresses.
    row!("a", "require_auth", RequireAuth(Address) -> Void),
    row!("a", "require_auth_for_args", RequireAuthForArgs(Address, Vec) -> Void),
    row!("a", "get_address_from_muxed_address", GetAddressFromMuxedAddress(MuxedAddress) -> Address),
    row!("a", "get_id_from_muxed_address", GetIdFromMuxedAddress(MuxedAddress) -> U64),
];

/// The indices of the rows, in the order of their names.
pub(crate) const BY_NAME: [u8; 94] = [
    63, 61, 68, 65, 56, 60, 55, 62, 57, 53, 69, 59, 58, 54, 64, 75, 88, 76, 1, 84, 85, 80, 52, 21,
    22, 81, 82, 8, 92, 79, 87, 6, 93, 5, 3, 4, 2, 7, 78, 26, 25, 28, 29, 31, 27, 23, 24, 30, 32, 0,
    16, 11, 13, 9, 17, 18, 12, 14, 15, 10, 77, 90, 91, 51, 66, 72, 70, 74, 67, 73, 71, 19, 20, 89,
    86, 83, 45, 43, 36, 47, 42, 35, 44, 48, 37, 33, 49, 41, 39, 40, 38, 34, 46, 50,
];
