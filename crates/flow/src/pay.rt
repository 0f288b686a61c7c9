// The pay for a delivery.
ghost use Rattle.std.specs.Prelude.{◌≡◌};
ghost use Rattle.flow.specs.Pay.{pay_for};

// The pay for a delivery of 0 to 40: entry d is the sum of the whole numbers from 0 to d.
const TRACK: [u32; 41] = [
    0, 1, 3, 6, 10, 15, 21, 28, 36, 45, 55, 66, 78, 91, 105, 120, 136, 153, 171, 190, 210, 231,
    253, 276, 300, 325, 351, 378, 406, 435, 465, 496, 528, 561, 595, 630, 666, 703, 741, 780, 820,
];

// What a delivery pays: nothing if it is negative, and beyond the track's end as much as at its end.
pub fn pay(delivery: i32) -> u32
    ensures { result ≡ pay_for delivery }
{
    // an index from 0 to 40: `try_from` would bring an error that cannot come
    TRACK[delivery.clamp(0, 40) as usize]
}
