// The sizes of a session's arrays, told by the library so that whoever declares its calls elsewhere can compare.
ghost use Rattle.std.specs.Prelude.{◌≡◌};
ghost use Rattle.desk.specs.Sizes.{size_of};

// How many numbers an array of a session has, by its place among those that open is lent; behind the last one there is none.
// One number is answered for one: an answer that grew with the session would be written behind what an older program keeps for it.
#[unsafe(no_mangle)]
pub extern "C" fn desk_size(array: u64) -> u64
    ensures { result ≡ size_of array }
{
    let sizes = [3u64, 31, 961, 31, 31, 303, 77, 31, 496];
    if 9 <= array {
        return 0;
    }
    sizes[array as usize]
}
