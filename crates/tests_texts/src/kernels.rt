//! Kernels in C, each with an input, and what they give by gcc for the same texts with the input as first values: the
//! value of `main`, and the words of `out`.

/// A kernel, an input, and what it comes to: words, negative numbers in two's complement.
pub struct Kernel {
    pub text: &'static str,
    pub input: &'static [u32],
    pub value: u32,
    pub out: &'static [u32],
}

pub static KERNELS: [Kernel; 8] = [
    Kernel {
        text: r#"/* Binary search in a table of 64 squares; one answer for each key. */
int in[8];
int table[64];
int out[8];

int find(int key)
{
    int low = 0; int high = 63;
    _Pragma("loopbound min 1 max 7")
    while (low <= high) {
        int mid = (low + high) / 2;
        if (table[mid] == key) { return mid; }
        if (table[mid] < key) { low = mid + 1; } else { high = mid - 1; }
    }
    return -1 - low;
}

int main()
{
    int i = 0; int hits = 0;
    _Pragma("loopbound min 64 max 64")
    for (i = 0; i < 64; i = i + 1) { table[i] = i * i; }
    _Pragma("loopbound min 8 max 8")
    for (i = 0; i < 8; i = i + 1) {
        int r = find(in[i]);
        out[i] = r;
        if (r >= 0) { hits = hits + 1; }
    }
    return hits;
}"#,
        input: &[3600, 64, 2269, 144, 1690, 2941, 3136, 3249],
        value: 5,
        out: &[60, 8, 4294967247, 12, 4294967253, 4294967240, 56, 57],
    },
    Kernel {
        text: r#"/* Fletcher-32 over halves of words and an internet checksum of the same data. */
int in[24];
unsigned out[2];

int main()
{
    unsigned a = 0xffff; unsigned b = 0xffff; unsigned net = 0; int i = 0;
    _Pragma("loopbound min 24 max 24")
    for (i = 0; i < 24; i = i + 1) {
        unsigned w = in[i];
        int part = 0;
        _Pragma("loopbound min 2 max 2")
        for (part = 0; part < 2; part = part + 1) {
            unsigned half = w & 0xffff;
            if (part == 0) { half = w >> 16; }
            a = a + half;
            b = b + a;
            net = net + half;
            a = (a & 0xffff) + (a >> 16);
            b = (b & 0xffff) + (b >> 16);
        }
    }
    a = (a & 0xffff) + (a >> 16);
    b = (b & 0xffff) + (b >> 16);
    _Pragma("loopbound min 0 max 3")
    while (net >> 16) { net = (net & 0xffff) + (net >> 16); }
    out[0] = b << 16 | a;
    out[1] = ~net & 0xffff;
    return out[0] ^ out[1];
}"#,
        input: &[
            4294935403, 4294952842, 14866, 13095, 4294953750, 4294937007, 4294964637, 23936, 26079,
            4294966928, 18502, 18106, 5323, 6095, 4294945432, 31897, 2445, 13436, 4294950996,
            28195, 4294965430, 30731, 4294951513, 13569,
        ],
        value: 319487999,
        out: &[319454192, 33807],
    },
    Kernel {
        text: r#"/* CRC-32 of the first in[0] words, byte by byte, and of a fixed message. */
int in[17];
unsigned out[3];

unsigned step(unsigned crc, unsigned octet)
{
    int k = 0;
    crc = crc ^ (octet & 255u);
    _Pragma("loopbound min 8 max 8")
    for (k = 0; k < 8; k = k + 1) {
        if (crc & 1u) { crc = (crc >> 1) ^ 0xEDB88320u; } else { crc = crc >> 1; }
    }
    return crc;
}

int main()
{
    unsigned crc = 0xFFFFFFFFu; int i = 0; int n = in[0] & 15;
    _Pragma("loopbound min 0 max 15")
    while (i < n) {
        unsigned w = in[i + 1];
        int shift = 24;
        _Pragma("loopbound min 4 max 4")
        while (shift >= 0) {
            crc = step(crc, w >> shift);
            shift = shift - 8;
        }
        i = i + 1;
    }
    out[0] = ~crc;
    crc = 0xFFFFFFFFu;
    _Pragma("loopbound min 9 max 9")
    for (i = 0; i < 9; i = i + 1) { crc = step(crc, 49 + i); }
    out[1] = ~crc;
    out[2] = out[0] ^ out[1];
    return out[1] == 0xCBF43926u;
}"#,
        input: &[0],
        value: 1,
        out: &[0, 3421780262, 3421780262],
    },
    Kernel {
        text: r#"/* 16-tap low-pass filter in Q15 over 48 samples, with saturation. */
int in[48];
int h[16] = {-77, -153, 0, 601, 1652, 3009, 4355, 5337, 5337, 4355, 3009, 1652, 601, 0, -153, -77};
_SPM int line[16];
int out[48];

int saturate(int x)
{
    if (x > 32767) { x = 32767; } else if (x < -32768) { x = -32768; }
    return x;
}

int main()
{
    int n = 0; int k = 0; int peak = 0;
    #pragma loopbound min 48 max 48
    for (n = 0; n < 48; n = n + 1) {
        int acc = 1 << 14;
        line[n & 15] = in[n];
        #pragma loopbound min 16 max 16
        for (k = 0; k < 16; k = k + 1) {
            acc = acc + h[k] * line[(n - k) & 15];
        }
        int y = saturate(acc >> 15);
        out[n] = y;
        if (y < 0) { y = -y; }
        if (y > peak) { peak = y; }
    }
    return peak;
}"#,
        input: &[
            4294942234, 4294965245, 591, 4294958074, 4294938979, 4294935951, 4294948572,
            4294959143, 4294948469, 29617, 27279, 3014, 4294964277, 4294942217, 24298, 4294967228,
            4506, 10709, 7903, 4294966705, 12927, 31641, 23208, 4294943046, 4294961355, 4294961276,
            4294962997, 32500, 28574, 9904, 4294954119, 27033, 19697, 4294942976, 4294937829,
            4294953409, 29309, 4294963087, 4294940771, 30530, 912, 4294934841, 4294948831, 27811,
            4294939894, 4294964062, 4294950064, 4294936711,
        ],
        value: 15102,
        out: &[
            59, 122, 8, 4294966855, 4294966104, 4294965108, 4294963828, 4294962118, 4294960192,
            4294957996, 4294955379, 4294953033, 4294952194, 4294953777, 4294957523, 4294962431,
            137, 3797, 4992, 4400, 3257, 2704, 2863, 3763, 5539, 7482, 8864, 9342, 8703, 6828,
            4339, 2619, 2593, 4204, 7113, 9901, 10870, 9488, 6568, 2799, 4294966048, 4294963230,
            4294962649, 4294963615, 4294964669, 4294965185, 4294965460, 4294964838,
        ],
    },
    Kernel {
        text: r#"/* A frame receiver: start byte 126, length, payload, sum; byte 125 escapes the next one by 32. */
int in[40];
int out[10];

int main()
{
    int state = 0; int escape = 0; int left = 0; int sum = 0; int good = 0; int bad = 0; int i = 0;
    #pragma loopbound min 40 max 40
    for (i = 0; i < 40; i = i + 1) {
        int c = in[i] & 255;
        if (c == 126) {
            if (state > 0 && state < 4) { bad = bad + 1; }
            state = 1; escape = 0; sum = 0;
            continue;
        }
        if (c == 125 && !escape) { escape = 1; continue; }
        if (escape) { c = c ^ 32; escape = 0; }
        if (state == 1) {
            if (c == 0 || c > 8) { bad = bad + 1; state = 0; } else { left = c; sum = c; state = 2; }
        } else if (state == 2) {
            sum = sum + c;
            out[2 + ((good + left) & 7)] = c;
            left = left - 1;
            if (left == 0) { state = 3; }
        } else if (state == 3) {
            if ((sum & 255) == c) { good = good + 1; } else { bad = bad + 1; }
            state = 0;
        } else {
            state = 0;
        }
    }
    out[0] = good;
    out[1] = bad;
    return state;
}"#,
        input: &[
            4294940397, 31215, 4294964582, 4294952535, 18882, 4294948841, 27461, 261, 4294961197,
            4294941141, 9030, 18904, 4294943796, 23349, 25307, 23026, 21804, 4294950792,
            4294963522, 4294966747, 8372, 4294947026, 4294937446, 4294959336, 4294935207,
            4294940095, 11459, 4294956547, 22174, 12198, 4294941113, 4294964858, 4294954423, 1467,
            6738, 29272, 4480, 4294947939, 10199, 4294944254,
        ],
        value: 0,
        out: &[0, 0, 0, 0, 0, 0, 0, 0, 0, 0],
    },
    Kernel {
        text: r#"/* Insertion sort of 20 numbers. */
int in[20];
int out[20];

int main()
{
    int i = 0; int moves = 0;
    _Pragma("loopbound min 20 max 20")
    for (i = 0; i < 20; i = i + 1) {
        int v = in[i];
        int j = i;
        _Pragma("loopbound min 0 max 20")
        while (j > 0) {
            if (out[j - 1] <= v) { break; }
            out[j] = out[j - 1];
            j = j - 1;
            moves = moves + 1;
        }
        out[j] = v;
    }
    return moves;
}"#,
        input: &[
            25944, 117, 8191, 4294966928, 4294950048, 4294949883, 4294955523, 2903, 4294946608,
            4294965209, 3493, 27335, 6260, 7700, 4294966476, 4294944923, 3048, 4294939423, 5039,
            4294945380,
        ],
        value: 110,
        out: &[
            4294939423, 4294944923, 4294945380, 4294946608, 4294949883, 4294950048, 4294955523,
            4294965209, 4294966476, 4294966928, 117, 2903, 3048, 3493, 5039, 6260, 7700, 8191,
            25944, 27335,
        ],
    },
    Kernel {
        text: r#"/* Integer square roots, digit by digit and by Newton, and the length of vectors. */
int in[8];
unsigned out[8];

unsigned root(unsigned x)
{
    unsigned r = 0; unsigned bit = 1u << 30; int k = 0;
    _Pragma("loopbound min 16 max 16")
    for (k = 0; k < 16; k = k + 1) {
        if (x >= r + bit) { x = x - (r + bit); r = (r >> 1) + bit; } else { r = r >> 1; }
        bit = bit >> 2;
    }
    return r;
}

unsigned newton(unsigned x)
{
    if (x < 2) { return x; }
    unsigned r = 65535;
    _Pragma("loopbound min 1 max 32")
    while (r > x / r) { r = (r + x / r) >> 1; }
    return r;
}

int main()
{
    int i = 0; int same = 0;
    _Pragma("loopbound min 8 max 8")
    while (i < 8) {
        unsigned a = root(in[i]); unsigned b = newton(in[i]);
        out[i] = a;
        if (a == b) { same = same + 1; }
        i = i + 1;
    }
    int s = 0;
    _Pragma("loopbound min 4 max 4")
    for (i = 0; i < 8; i = i + 2) {
        int x = in[i] % 10000; int y = in[i + 1] % 10000;
        int len = root(x * x + y * y);
        s = s + len;
    }
    return s * 10 + same;
}"#,
        input: &[433, 1279051093, 604, 752, 464, 630, 510, 767],
        value: 38428,
        out: &[20, 35763, 24, 27, 21, 25, 22, 27],
    },
    Kernel {
        text: r#"/* Moving median of five. */
int in[30];
int out[26];
_SPM int w[5];

int main()
{
    int i = 0; int changes = 0;
    _Pragma("loopbound min 26 max 26")
    for (i = 0; i < 26; i = i + 1) {
        int k = 0;
        _Pragma("loopbound min 5 max 5")
        for (k = 0; k < 5; k = k + 1) {
            int v = in[i + k]; int j = k - 1;
            _Pragma("loopbound min 0 max 4")
            while (j >= 0) {
                if (w[j] <= v) { break; }
                w[j + 1] = w[j];
                j = j - 1;
            }
            w[j + 1] = v;
        }
        out[i] = w[2];
        if (out[i] != in[i + 2]) { changes = changes + 1; }
    }
    return changes;
}"#,
        input: &[
            4294956395, 4294955101, 4294966766, 19548, 4294945279, 4294962702, 4207, 4294934861,
            4294964018, 4294949148, 7336, 32721, 4294954213, 11696, 4294958803, 24294, 4294952711,
            4294939961, 4294938461, 11902, 31395, 14620, 4294957897, 30732, 4294944693, 22954,
            15421, 4294934763, 4294949819, 4294943271,
        ],
        value: 19,
        out: &[
            4294956395, 4294962702, 4294966766, 4294962702, 4294962702, 4294962702, 4294964018,
            4294964018, 4294964018, 7336, 7336, 11696, 4294958803, 4294958803, 4294952711,
            4294952711, 4294952711, 11902, 11902, 14620, 14620, 14620, 15421, 15421, 4294949819,
            4294949819,
        ],
    },
];
