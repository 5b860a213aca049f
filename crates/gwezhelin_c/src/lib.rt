// The archive for C: it exports the functions of the crate gwezhelin, under their names and with their clauses.
ghost use Rattle.std.specs.Prelude.{◌≡◌, not, eqb};
ghost use Rattle.rules.specs.Run.{message, attribute_report, alarm_report, store_length};
ghost use Rattle.rules.specs.Products.{built_products};
ghost use Rattle.store.specs.Entries.{enter, power_on};
ghost use Rattle.gwezhelin.specs.Numbers.{Returns, StartReturns};

// How many bytes a store has.
#[unsafe(no_mangle)]
pub extern "C" fn gwz_store_size() -> usize
    ensures { result ≡ store_length }
{
    gwezhelin::gwz_store_size()
}

// Writes the fresh state of a product.
#[unsafe(no_mangle)]
pub extern "C" fn gwz_power_on(store: &mut [u8], product: u8) -> u8
    ensures { StartReturns result store.new (power_on built_products product store.old) }
{
    gwezhelin::gwz_power_on(store, product)
}

// A message from the exchange.
#[unsafe(no_mangle)]
pub extern "C" fn gwz_handle(store: &mut [u8], m: &[u8], reply: &mut [u8]) -> u8
    ensures { Returns result store.new reply.new (enter built_products (message m.now) store.old reply.old) }
{
    gwezhelin::gwz_handle(store, m, reply)
}

// A local report of an attribute's new content.
#[unsafe(no_mangle)]
pub extern "C" fn gwz_report_attribute(
    store: &mut [u8],
    class_id: u16,
    instance: u16,
    attribute: u8,
    content: &[u8],
    reply: &mut [u8],
) -> u8
    ensures { Returns result store.new reply.new
        (enter built_products (attribute_report class_id instance attribute content.now) store.old reply.old) }
{
    gwezhelin::gwz_report_attribute(store, class_id, instance, attribute, content, reply)
}

// A local report of an alarm: `on` 0 clears it, anything else raises it.
#[unsafe(no_mangle)]
pub extern "C" fn gwz_report_alarm(
    store: &mut [u8],
    class_id: u16,
    instance: u16,
    alarm: u8,
    on: u8,
    reply: &mut [u8],
) -> u8
    ensures { Returns result store.new reply.new
        (enter built_products (alarm_report class_id instance alarm (not (eqb on 0))) store.old reply.old) }
{
    gwezhelin::gwz_report_alarm(store, class_id, instance, alarm, on, reply)
}
