// The products that are built, by number.
ghost use Rattle.std.specs.Prelude.{◌≡◌};
ghost use Rattle.class_tables.specs.Built.{product_of, by_product, provisioned, Names};

use super::{NotBuilt, Product};

// The product that a number names: the one place where a byte is turned into a product.
impl TryFrom<u8> for Product {
    type Error = NotBuilt;

    ghost try_from_gives = { Names };

    fn try_from(number: u8) -> Result<Self, NotBuilt> {
        match number {
            1 => Ok(Product::Small),
            2 => Ok(Product::Large),
            3 => Ok(Product::Meter),
            _ => Err(NotBuilt),
        }
    }
}

// A product's number.
impl From<Product> for u8 {
    ghost from_gives = { λ product number. number ≡ product_of product };

    fn from(product: Product) -> u8 {
        match product {
            Product::Small => 1,
            Product::Large => 2,
            Product::Meter => 3,
        }
    }
}

// One of three values, by product.
pub fn by<T: Copy>(product: Product, small: T, large: T, meter: T) -> T
    ensures { result ≡ by_product product small large meter }
{
    match product {
        Product::Small => small,
        Product::Large => large,
        Product::Meter => meter,
    }
}

// Has the product bridges and ports, and the commands Create, Delete and Set? Meter has neither.
pub fn provisioned(product: Product) -> bool
    ensures { result ≡ provisioned product }
{
    by(product, true, true, false)
}
