// The records that are found in a file.
use compare_text::{end_line, put_number, start_line};
use file_load::Found;
use product::Product;

fn put_four(rt: HostRuntime, bytes: [u8; 4]) {
    put_number(rt, bytes[0]);
    put_number(rt, bytes[1]);
    put_number(rt, bytes[2]);
    put_number(rt, bytes[3]);
}

fn put_three(rt: HostRuntime, bytes: [u8; 3]) {
    put_number(rt, bytes[0]);
    put_number(rt, bytes[1]);
    put_number(rt, bytes[2]);
}

// The fields of a record.
fn put_product(rt: HostRuntime, item: Product) {
    let id = item.id;
    let group = item.group;
    let market = item.market;
    let kind = item.kind;
    let currency = item.currency;
    put_four(rt, id);
    put_four(rt, group);
    put_four(rt, market);
    put_number(rt, product::kind_number(kind));
    put_number(rt, item.size);
    put_number(rt, item.tick);
    put_three(rt, currency);
}

// Question 9 of an id: the refusal, the record's block and number, and its fields.
fn id_line(rt: HostRuntime, file: &[u8], id: [u8; 4]) {
    start_line(rt, b'I');
    match file_load::find(file, id) {
        Found::At(block, record) => {
            put_number(rt, 0);
            put_number(rt, block);
            put_number(rt, record);
            put_product(rt, file_load::product_at(file, block, record));
        }
        Found::Nothing => {
            put_number(rt, 9);
            put_number(rt, 0);
            put_number(rt, 0);
        }
    }
    end_line(rt);
}

// The ids asked of every accepted file.
pub(crate) fn print(rt: HostRuntime, file: &[u8]) {
    id_line(rt, file, [b'A', b'X', b'A', b' ']);
    id_line(rt, file, [b'A', b'L', b'V', b' ']);
    id_line(rt, file, [b'A', b' ', b' ', b' ']);
    id_line(rt, file, [b'A', b'A', b'L', b'F']);
    id_line(rt, file, [b'A', b'D', b'S', b' ']);
    id_line(rt, file, [b'A', b'D', b'S', b'G']);
    id_line(rt, file, [b'Z', b'U', b'R', b'N']);
    id_line(rt, file, [b'Z', b'Z', b'Z', b'Z']);
    id_line(rt, file, [b'0', b'0', b'0', b'0']);
    id_line(rt, file, [b'0', b'9', b'I', b'M']);
    id_line(rt, file, [b'0', b'A', b'7', b'3']);
    id_line(rt, file, [b'A', b'X', b'A', 0]);
    id_line(rt, file, [b'a', b'x', b'a', b' ']);
    id_line(rt, file, [b' ', b' ', b' ', b' ']);
    id_line(rt, file, [0, 0, 0, 0]);
}
