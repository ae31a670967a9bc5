// The products of a master file, place by place.
#![tactic(auto)]

ghost use Rattle.std.specs.Prelude.{◌≡◌};
ghost use Rattle.delivery_products.specs.IdList.{id_in};
ghost use Rattle.delivery_products.specs.ProductsByPlace.{no_product, place_call, place_answer};

use product::Product;

// The refusal, 0 where the place holds a record, and the record's product, zeros with a refusal.
#[derive(Clone, Copy)]
pub struct PlaceProduct {
    pub refusal: u8,
    pub product: Product,
}

// The number of a refusal, and zeros.
fn no_product(number: u8) -> PlaceProduct
    ensures { result ≡ no_product number }
{
    let product = product::zero_product();
    PlaceProduct {
        refusal: number,
        product,
    }
}

// The product at a place of the file: place p is record p % 15 of block p / 15. A file with n blocks has 15 n places, and those that hold no record get 9.
pub fn product_in(file: &[u8], place: usize) -> PlaceProduct
    ensures { place_answer result ≡ place_call file.now place }
{
    let judged = file_load::judge(file);
    let refusal = judged.refusal;
    if refusal != 0 {
        return no_product(refusal);
    }
    if !file_ids::is_record(file, place) {
        return no_product(9);
    }
    let product = file_load::product_at(file, place / 15, place % 15);
    PlaceProduct {
        refusal: 0,
        product,
    }
}

// The four bytes of id i of a list; 0 past its end.
pub fn id_in(ids: &[u8], i: u32) -> file_records::FourBytes
    ensures { result ≡ id_in ids.now i }
{
    let at = 4 * (i as usize);
    [
        file_blocks::byte_at(ids, at),
        file_blocks::byte_at(ids, at + 1),
        file_blocks::byte_at(ids, at + 2),
        file_blocks::byte_at(ids, at + 3),
    ]
}
