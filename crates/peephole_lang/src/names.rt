//! The variant that a text is of.
ghost use Rattle.std.specs.Prelude.{◌≡◌, slice_get};
ghost use Rattle.std.specs.Option.{option_map};
ghost use Rattle.peephole_nodes.specs.Variants.{variants, variant_at};
ghost use Rattle.peephole_lang.specs.Names.{find_in};
ghost use Rattle.peephole_lang.specs.VariantRows.{variant_row, variant_row_given, found, place_found};
ghost use Rattle.peephole_lang.specs.Fronts.{front_order};
ghost use Rattle.peephole_nodes.specs.Fronts.{front_at};

use crate::variants::{VARIANTS, VariantRow};
use peephole_nodes::front_at;
use std::cmp::Ordering;

// The places of the variants, their fronts ascending.
const BY_FRONT: [u16; 458] = [
    13, 11, 192, 14, 196, 122, 129, 124, 50, 161, 162, 163, 164, 135, 165, 132, 74, 125, 79, 77,
    78, 25, 76, 134, 133, 131, 75, 127, 123, 2, 173, 128, 39, 130, 126, 9, 407, 410, 304, 431, 432,
    295, 413, 266, 232, 305, 271, 269, 270, 268, 415, 414, 412, 267, 307, 408, 417, 416, 442, 451,
    450, 443, 233, 220, 409, 411, 306, 136, 143, 138, 51, 166, 167, 168, 169, 149, 146, 80, 139,
    85, 83, 84, 26, 82, 148, 147, 145, 81, 141, 137, 170, 3, 174, 142, 40, 144, 140, 10, 418, 421,
    317, 435, 436, 424, 272, 234, 318, 277, 275, 276, 274, 426, 425, 423, 273, 349, 419, 428, 427,
    296, 444, 453, 452, 445, 235, 221, 420, 422, 323, 19, 20, 329, 343, 344, 345, 332, 355, 333,
    246, 325, 326, 337, 339, 336, 338, 357, 359, 356, 358, 225, 226, 254, 255, 250, 251, 252, 253,
    248, 249, 353, 354, 351, 352, 350, 334, 335, 247, 330, 331, 455, 447, 454, 227, 340, 341, 342,
    217, 346, 347, 348, 89, 96, 86, 48, 87, 92, 93, 53, 52, 176, 175, 61, 62, 57, 58, 59, 60, 23,
    29, 30, 27, 28, 55, 56, 91, 54, 97, 88, 0, 171, 94, 95, 102, 103, 99, 100, 101, 37, 42, 41, 90,
    151, 152, 153, 154, 183, 184, 185, 186, 5, 7, 98, 360, 371, 362, 363, 378, 256, 327, 328, 365,
    367, 364, 366, 380, 382, 379, 381, 228, 264, 265, 260, 261, 262, 263, 258, 259, 376, 377, 374,
    375, 373, 257, 361, 456, 448, 438, 439, 440, 441, 229, 368, 369, 370, 218, 372, 429, 430, 433,
    434, 107, 114, 104, 49, 105, 110, 111, 64, 63, 178, 179, 177, 155, 156, 72, 73, 68, 69, 70, 71,
    24, 33, 34, 35, 36, 31, 32, 66, 67, 109, 65, 115, 106, 1, 172, 112, 113, 120, 121, 117, 118,
    119, 38, 44, 45, 43, 108, 157, 158, 159, 160, 187, 188, 189, 190, 6, 8, 116, 383, 394, 385,
    386, 397, 388, 390, 387, 389, 404, 406, 403, 405, 230, 402, 400, 401, 399, 396, 398, 384, 449,
    231, 391, 392, 393, 219, 395, 297, 311, 312, 313, 300, 324, 301, 236, 222, 223, 244, 245, 240,
    241, 242, 243, 238, 239, 321, 322, 319, 320, 302, 303, 237, 298, 299, 446, 437, 224, 308, 309,
    310, 214, 216, 314, 315, 316, 215, 16, 17, 18, 193, 194, 47, 191, 46, 12, 182, 181, 180, 15,
    457, 197, 200, 21, 198, 195, 22, 199, 4, 279, 280, 284, 283, 213, 201, 286, 209, 204, 205, 287,
    210, 293, 206, 207, 288, 211, 294, 285, 208, 202, 203, 278, 281, 212, 290, 291, 292, 289, 282,
    150,
];

fn variant_row_in(rows: &[VariantRow], place: u16) -> Option<VariantRow>
    ensures { result ≡ slice_get rows.now place }
{
    match rows.get(place as usize) {
        Some(variant) => Some(*variant),
        None => None,
    }
}

// The variant with that place.
pub(crate) fn variant_row_at(place: u16) -> Option<VariantRow>
    ensures { result ≡ option_map variant_row (variant_at place) }
{
    variant_row_in(&VARIANTS, place)
}

// `Equal` where the text is the front of the variant with that place, or begins with it and the front ends in a dot; else as
// front and text are ordered.
fn compare(place: u16, text: &str) -> Ordering
    ensures { result ≡ front_order (front_at place) text.now }
{
    let front = front_at(place);
    if front.ends_with('.') && text.starts_with(front) {
        Ordering::Equal
    } else {
        front.cmp(text)
    }
}

// The place of the variant that the text is of.
fn place_of(text: &str) -> Option<u16>
    ensures { result ≡ place_found (find_in variants text.now) }
{
    let at = BY_FRONT
        .binary_search_by(|&place| compare(place, text))
        .ok()?;
    Some(BY_FRONT[at])
}

// The variant that the text is of, and the text of its payload.
pub(crate) fn find(text: &str) -> Option<(VariantRow, &str)>
    ensures { variant_row_given result ≡ found (find_in variants text.now) }
{
    let place = place_of(text)?;
    let variant = variant_row_at(place).unwrap();
    let payload_text = text.strip_prefix(front_at(place)).unwrap();
    Some((variant, payload_text))
}
